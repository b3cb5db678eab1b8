//! What comes through a way, from a client to the agent and back, at one moment, and for what its ends close.
#![tactic(auto)]

pub mod laws;

pub use laws::{no_fault_comes_through, what_comes_through, what_is_answered_once_is_sound};

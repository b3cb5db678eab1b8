//! What a peer learns from the messages that it takes.
#![tactic(auto)]

mod hearing;
pub mod laws;

pub use hearing::{hear_answer, hear_event, hear_final};
pub use laws::what_is_kept_was_learned;

//! What the logs of whole chains owe to the history of the target, and for what their ends close.
#![tactic(auto)]

pub mod laws;

pub use laws::{every_file, every_schedule, read_is_playable};

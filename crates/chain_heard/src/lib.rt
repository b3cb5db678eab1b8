//! What the log of a client owes to the history of the target, by what the client took.
#![tactic(auto)]

pub mod laws;

pub use laws::{
    commands_are_few, no_target_heard_is_ordered, what_was_heard_is_fresh,
    what_was_heard_is_ordered, what_was_heard_is_true,
};

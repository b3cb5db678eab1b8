//! A scripted client: its end of a channel, and the log of what it sent and took.
#![tactic(auto)]

mod client;
pub mod laws;
mod lines;

pub use client::ClientNode;
pub use laws::{
    a_clients_end_is_a_run, each_command_is_answered_once, the_cache_keeps_what_the_log_says,
    the_log_tells_what_was_taken,
};

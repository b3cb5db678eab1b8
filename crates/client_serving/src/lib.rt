//! A client that is served over one wire: the lines of its script are done in order, and what it tells goes to its peer.
#![tactic(auto)]

pub mod end;
pub mod laws;
mod lines;
pub mod run;
mod serving;
mod telling;

pub use client_node::ClientNode;
pub use end::{ClientEnd, ClientRun};
pub use laws::{
    an_end_is_what_it_says, nothing_is_left_to_take, what_is_served_is_a_client,
    whatever_comes_each_command_is_answered_once,
};
pub use run::run_client;

//! The top call.
#![tactic(auto)]

mod agent;
mod chain;
mod client;
pub mod exit;
mod finish;
mod hub;
mod journal;
mod laws;
mod lines;
mod load;
mod order;
mod reading;
pub mod refusing;
mod serving;
mod show;
pub mod top;
mod value;

pub use exit::{BadPlace, Exit, StreamWhat};
pub use laws::one_outcome;
pub use refusing::report_wire_fault;
pub use top::tcf;

//! A client's log, with the cache that its lines teach.
#![tactic(auto)]

mod learning;
mod log;
mod texts;

pub use log::ClientLog;

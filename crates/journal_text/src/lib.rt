//! Journals: what was done to a target, and the log of one client of it, as a file of lines. They are written and read.
#![tactic(auto)]

pub mod inputs;
pub mod journal;
pub mod reading;
pub mod writing;

pub use inputs::read_input;
pub use journal::{Images, Inputs, Journal, LogLines};
pub use reading::read_journal;
pub use writing::write_journal;

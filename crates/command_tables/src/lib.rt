//! The commands of the services: which command some data is, and how a command is written.
#![tactic(auto)]

pub mod arguments;
mod laws;
pub mod reading;
pub mod rows;
pub mod writing;

pub use laws::readings_are_legal;
pub use reading::{Reading, read_command};
pub use rows::arguments_are_in_place;
pub use writing::{WrittenCommand, write_command};

//! TCF messages as bytes: read without memory, with the first fault from the left, and written in their one spelling.
#![tactic(auto)]

mod fields;
mod laws;
mod level;
mod message;
mod reading;
mod writing;

pub use laws::{decimal_token, faults, one_spelling, read_back};
pub use message::{BODY_LIMIT, Message, MessageFault, TOKEN_LIMIT};
pub use reading::read;
pub use writing::write;

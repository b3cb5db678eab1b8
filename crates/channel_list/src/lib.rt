//! Channels under numbers: the end of each, what is told to all of them, and which numbers were given.
#![tactic(auto)]

mod channel;
mod channels;
mod numbers;

pub use channel::{Channel, new_channel};
pub use channels::Channels;
pub use numbers::{Numbers, Span};

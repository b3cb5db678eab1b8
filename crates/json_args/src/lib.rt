//! The arguments of commands, answers and events: the parts of a body, and the kinds that a part is read as.
#![tactic(auto)]

pub mod fault;
pub mod kinds;
pub mod parts;
mod plain;
pub mod readers;

pub use fault::ArgFault;
pub use parts::{Args, add_part, parts_are_unique, split};
pub use readers::{blob, flag, text, texts, value, whole};

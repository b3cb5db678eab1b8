//! The inputs of the target, of which its history is the list.
use crate::Reading;
use tcf_values::{Bytes, ContextId};

/// What is done to the target, one at a time. The number of inputs so far is the position of each message that an input
/// sends.
#[derive(Debug, Drop)]
pub enum Input {
    /// This channel opened.
    Opened(u64),
    /// This channel executed a command: what it is read as, its service and its name, which needn't be UTF-8.
    Executed(u64, Reading, Bytes, Bytes),
    /// This thread executed one instruction.
    Ticked(ContextId),
    /// This channel closed.
    Closed(u64),
}

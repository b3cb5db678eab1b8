//! What is known of whether a thread runs.
use tcf_values::{Text, Texts};

/// Whether a thread runs. One that is suspended has the reason in words, and the IDs of the breakpoints that it hit;
/// its pc is known as a register.
#[derive(Debug, Drop)]
pub enum StateFact {
    Running,
    Suspended { reason: Text, hits: Texts },
}

//! What a command is answered with.
use crate::errors::ErrorReport;
use crate::text::{Bytes, Texts};
use crate::values::{BpProps, BpStatus, ContextData, ProcessData, RunState};

/// The answer to a command. Which of them a command can have is said by its row.
#[derive(Debug, Drop)]
pub enum Answer {
    Failed(ErrorReport),
    /// No error, and no result.
    Nothing,
    Context(ContextData),
    Ids(Texts),
    State(RunState),
    Process(ProcessData),
    Bp(BpProps),
    Status(BpStatus),
    /// What the breakpoints service can do; it is one and the same everywhere.
    Capabilities,
    Blob(Bytes),
    /// The IDs of peers.
    Peers(Texts),
    /// How many instructions were executed.
    Count(u32),
}

//! What the services, their commands and their events are called.
#![tactic(auto)]

pub mod commands;
pub mod events;

pub use commands::{
    BreakpointsCommand, CommandName, LocatorCommand, MemoryCommand, ProcessesCommand,
    RegistersCommand, RunControlCommand, TraceCommand, command_named, name_of_command,
    names_are_exact,
};
pub use events::{EventName, event_named, event_names_are_exact, name_of_event};

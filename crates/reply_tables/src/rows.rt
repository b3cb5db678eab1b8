//! What stands in the data of the answer to each command.
ghost use Rattle.std.specs.Prelude.{◌≡◌};
ghost use Rattle.reply_tables.specs.Rows.{row_named as the_row_named, row_of as the_row_of};

use service_names::{
    BreakpointsCommand, CommandName, LocatorCommand, MemoryCommand, ProcessesCommand,
    RegistersCommand, RunControlCommand, TraceCommand, name_of_command,
};
use tcf_values::Command;

/// The kind of a result.
#[derive(Clone, Copy, Debug, PartialEq, Eq)]
pub enum Kind {
    Context,
    Ids,
    Process,
    Bp,
    Status,
    Capabilities,
    Blob,
    Peers,
    Count,
}

/// The parts of the answer to a command, in their order.
#[derive(Clone, Copy, Debug, PartialEq, Eq)]
pub enum Row {
    /// No part at all; the error alone where there is one.
    NoData,
    /// The error.
    ErrorAlone,
    /// The error, and a part that isn't read.
    ErrorNull,
    /// The error, and a result.
    ErrorThen(Kind),
    /// The error, and the state of a thread in four parts.
    ErrorState,
    /// Bytes, the error, and a part that isn't read.
    BlobErrorNull,
}

/// The row of a command by its name.
pub fn row_named(name: CommandName) -> Row
    ensures { result ≡ the_row_named name }
{
    match name {
        CommandName::Locator(LocatorCommand::Sync) => Row::NoData,
        CommandName::Locator(LocatorCommand::GetPeers) => Row::ErrorThen(Kind::Peers),
        CommandName::RunControl(RunControlCommand::GetContext) => Row::ErrorThen(Kind::Context),
        CommandName::RunControl(RunControlCommand::GetChildren) => Row::ErrorThen(Kind::Ids),
        CommandName::RunControl(RunControlCommand::GetState) => Row::ErrorState,
        CommandName::Breakpoints(BreakpointsCommand::GetIds) => Row::ErrorThen(Kind::Ids),
        CommandName::Breakpoints(BreakpointsCommand::GetProperties) => Row::ErrorThen(Kind::Bp),
        CommandName::Breakpoints(BreakpointsCommand::GetStatus) => Row::ErrorThen(Kind::Status),
        CommandName::Breakpoints(BreakpointsCommand::GetCapabilities) => Row::ErrorThen(
            Kind::Capabilities,
        ),
        CommandName::Memory(MemoryCommand::Get) => Row::BlobErrorNull,
        CommandName::Memory(MemoryCommand::Set) => Row::ErrorNull,
        CommandName::Registers(RegistersCommand::Get | RegistersCommand::Getm) => Row::ErrorThen(
            Kind::Blob,
        ),
        CommandName::Processes(ProcessesCommand::GetContext | ProcessesCommand::Start) => {
            Row::ErrorThen(Kind::Process)
        }
        CommandName::Processes(ProcessesCommand::GetChildren) => Row::ErrorThen(Kind::Ids),
        CommandName::Trace(TraceCommand::Run) => Row::ErrorThen(Kind::Count),
        _ => Row::ErrorAlone,
    }
}

/// The row of a command.
pub fn row_of(command: &Command) -> Row
    ensures { result ≡ the_row_of command.now }
{
    row_named(name_of_command(command))
}

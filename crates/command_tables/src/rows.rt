//! Reading the arguments of each command.
ghost use Rattle.std.specs.Prelude.{◌≡◌, ◌≢◌, [], Ok, Err, IfOk, IfErr};
ghost use Rattle.command_tables.specs.Canonical.{IsReadable};
ghost use Rattle.command_tables.specs.Places.{IsAtItsIndex};
ghost use Rattle.service_names.specs.Commands.{named_as};
ghost use Rattle.command_tables.specs.Rows.{row_of, locator_row, run_control_row, breakpoints_row, memory_row, registers_row, processes_row, trace_row};

use crate::arguments::Arguments;
use json_args::{ArgFault, Args};
use service_names::{
    BreakpointsCommand, CommandName, LocatorCommand, MemoryCommand, ProcessesCommand,
    RegistersCommand, RunControlCommand, TraceCommand,
};
use std::alloc::Global;
use tcf_values::Command;

/// Reads the arguments of a command of Locator.
fn read_locator(command: LocatorCommand, arguments: &mut Arguments<'_>) -> Result<Command, ArgFault>
    requires { arguments.now.index ≡ 0 }
    ensures ok { IfOk result (λ made. locator_row command 0 arguments.old.parts ≡ Ok made) }
    ensures named { IfOk result (λ made. named_as made ≡ CommandName.Locator command) }
    ensures within { IfOk result IsReadable }
    ensures fault { IfErr result (λ fault. fault ≢ ArgFault.NoMemory → locator_row command 0 arguments.old.parts ≡ Err fault) }
    ensures nothing_left { arguments.old.parts ≡ [] → IfErr result (λ fault. fault ≢ ArgFault.NoMemory) }
{
    match command {
        LocatorCommand::Sync => Ok(Command::Sync),
        LocatorCommand::GetPeers => Ok(Command::GetPeers),
        LocatorCommand::Redirect => Ok(Command::Redirect {
            peer: arguments.text()?,
        }),
    }
}

/// Reads the arguments of a command of RunControl.
fn read_run_control(
    command: RunControlCommand,
    arguments: &mut Arguments<'_>,
) -> Result<Command, ArgFault>
    requires { arguments.now.index ≡ 0 }
    ensures ok { IfOk result (λ made. run_control_row command 0 arguments.old.parts ≡ Ok made) }
    ensures named { IfOk result (λ made. named_as made ≡ CommandName.RunControl command) }
    ensures within { IfOk result IsReadable }
    ensures fault { IfErr result (λ fault. fault ≢ ArgFault.NoMemory → run_control_row command 0 arguments.old.parts ≡ Err fault) }
    ensures nothing_left { arguments.old.parts ≡ [] → IfErr result (λ fault. fault ≢ ArgFault.NoMemory) }
{
    match command {
        RunControlCommand::GetContext => Ok(Command::GetContext {
            id: arguments.text()?,
        }),
        RunControlCommand::GetChildren => Ok(Command::GetChildren {
            id: arguments.text()?,
        }),
        RunControlCommand::GetState => Ok(Command::GetState {
            id: arguments.text()?,
        }),
        RunControlCommand::Resume => Ok(Command::Resume {
            id: arguments.text()?,
            mode: arguments.whole()?,
            count: arguments.whole()?,
        }),
        RunControlCommand::Suspend => Ok(Command::Suspend {
            id: arguments.text()?,
        }),
        RunControlCommand::Terminate => Ok(Command::Terminate {
            id: arguments.text()?,
        }),
    }
}

/// Reads the arguments of a command of Breakpoints.
fn read_breakpoints(
    command: BreakpointsCommand,
    arguments: &mut Arguments<'_>,
) -> Result<Command, ArgFault>
    requires { arguments.now.index ≡ 0 }
    ensures ok { IfOk result (λ made. breakpoints_row command 0 arguments.old.parts ≡ Ok made) }
    ensures named { IfOk result (λ made. named_as made ≡ CommandName.Breakpoints command) }
    ensures within { IfOk result IsReadable }
    ensures fault { IfErr result (λ fault. fault ≢ ArgFault.NoMemory → breakpoints_row command 0 arguments.old.parts ≡ Err fault) }
    ensures nothing_left { arguments.old.parts ≡ [] → IfErr result (λ fault. fault ≢ ArgFault.NoMemory) }
{
    match command {
        BreakpointsCommand::Set => Ok(Command::BpSet {
            list: arguments.kind()?,
        }),
        BreakpointsCommand::Add => Ok(Command::BpAdd {
            props: arguments.kind()?,
        }),
        BreakpointsCommand::Change => Ok(Command::BpChange {
            props: arguments.kind()?,
        }),
        BreakpointsCommand::Enable => Ok(Command::BpEnable {
            ids: arguments.texts()?,
        }),
        BreakpointsCommand::Disable => Ok(Command::BpDisable {
            ids: arguments.texts()?,
        }),
        BreakpointsCommand::Remove => Ok(Command::BpRemove {
            ids: arguments.texts()?,
        }),
        BreakpointsCommand::GetIds => Ok(Command::BpIds),
        BreakpointsCommand::GetProperties => Ok(Command::BpProperties {
            id: arguments.text()?,
        }),
        BreakpointsCommand::GetStatus => Ok(Command::BpGetStatus {
            id: arguments.text()?,
        }),
        BreakpointsCommand::GetCapabilities => Ok(Command::BpCapabilities {
            id: arguments.text()?,
        }),
    }
}

/// Reads the arguments of a command of Memory.
fn read_memory(command: MemoryCommand, arguments: &mut Arguments<'_>) -> Result<Command, ArgFault>
    requires { arguments.now.index ≡ 0 }
    ensures ok { IfOk result (λ made. memory_row command 0 arguments.old.parts ≡ Ok made) }
    ensures named { IfOk result (λ made. named_as made ≡ CommandName.Memory command) }
    ensures within { IfOk result IsReadable }
    ensures fault { IfErr result (λ fault. fault ≢ ArgFault.NoMemory → memory_row command 0 arguments.old.parts ≡ Err fault) }
    ensures nothing_left { arguments.old.parts ≡ [] → IfErr result (λ fault. fault ≢ ArgFault.NoMemory) }
{
    match command {
        MemoryCommand::Get => Ok(Command::MemGet {
            id: arguments.text()?,
            addr: arguments.whole()?,
            word: arguments.whole()?,
            size: arguments.whole()?,
            mode: arguments.whole()?,
        }),
        MemoryCommand::Set => Ok(Command::MemSet {
            id: arguments.text()?,
            addr: arguments.whole()?,
            word: arguments.whole()?,
            size: arguments.whole()?,
            mode: arguments.whole()?,
            bytes: arguments.blob()?,
        }),
    }
}

/// Reads the arguments of a command of Registers.
fn read_registers(
    command: RegistersCommand,
    arguments: &mut Arguments<'_>,
) -> Result<Command, ArgFault>
    requires { arguments.now.index ≡ 0 }
    ensures ok { IfOk result (λ made. registers_row command 0 arguments.old.parts ≡ Ok made) }
    ensures named { IfOk result (λ made. named_as made ≡ CommandName.Registers command) }
    ensures within { IfOk result IsReadable }
    ensures fault { IfErr result (λ fault. fault ≢ ArgFault.NoMemory → registers_row command 0 arguments.old.parts ≡ Err fault) }
    ensures nothing_left { arguments.old.parts ≡ [] → IfErr result (λ fault. fault ≢ ArgFault.NoMemory) }
{
    match command {
        RegistersCommand::Get => Ok(Command::RegGet {
            id: arguments.text()?,
        }),
        RegistersCommand::Set => Ok(Command::RegSet {
            id: arguments.text()?,
            bytes: arguments.blob()?,
        }),
        RegistersCommand::Getm => Ok(Command::RegGetm {
            list: arguments.kind()?,
        }),
        RegistersCommand::Setm => Ok(Command::RegSetm {
            list: arguments.kind()?,
            bytes: arguments.blob()?,
        }),
    }
}

/// Reads the arguments of a command of Processes.
fn read_processes(
    command: ProcessesCommand,
    arguments: &mut Arguments<'_>,
) -> Result<Command, ArgFault>
    requires { arguments.now.index ≡ 0 }
    ensures ok { IfOk result (λ made. processes_row command 0 arguments.old.parts ≡ Ok made) }
    ensures named { IfOk result (λ made. named_as made ≡ CommandName.Processes command) }
    ensures within { IfOk result IsReadable }
    ensures fault { IfErr result (λ fault. fault ≢ ArgFault.NoMemory → processes_row command 0 arguments.old.parts ≡ Err fault) }
    ensures nothing_left { arguments.old.parts ≡ [] → IfErr result (λ fault. fault ≢ ArgFault.NoMemory) }
{
    match command {
        ProcessesCommand::GetContext => Ok(Command::ProcContext {
            id: arguments.text()?,
        }),
        ProcessesCommand::GetChildren => Ok(Command::ProcChildren {
            id: arguments.text()?,
            attached: arguments.flag()?,
        }),
        ProcessesCommand::Start => Ok(Command::ProcStart {
            directory: arguments.text()?,
            file: arguments.text()?,
            args: arguments.texts()?,
            environment: arguments.texts()?,
            attach: arguments.flag()?,
        }),
        ProcessesCommand::Attach => Ok(Command::ProcAttach {
            id: arguments.text()?,
        }),
        ProcessesCommand::Detach => Ok(Command::ProcDetach {
            id: arguments.text()?,
        }),
        ProcessesCommand::Terminate => Ok(Command::ProcTerminate {
            id: arguments.text()?,
        }),
    }
}

/// Reads the arguments of a command of Trace.
fn read_trace(command: TraceCommand, arguments: &mut Arguments<'_>) -> Result<Command, ArgFault>
    requires { arguments.now.index ≡ 0 }
    ensures ok { IfOk result (λ made. trace_row command 0 arguments.old.parts ≡ Ok made) }
    ensures named { IfOk result (λ made. named_as made ≡ CommandName.Trace command) }
    ensures within { IfOk result IsReadable }
    ensures fault { IfErr result (λ fault. fault ≢ ArgFault.NoMemory → trace_row command 0 arguments.old.parts ≡ Err fault) }
    ensures nothing_left { arguments.old.parts ≡ [] → IfErr result (λ fault. fault ≢ ArgFault.NoMemory) }
{
    match command {
        TraceCommand::Run => Ok(Command::TraceRun {
            id: arguments.text()?,
            count: arguments.whole()?,
        }),
    }
}

/// Reads the arguments of the command, from the left. The first that can't be read is answered, and parts past them
/// aren't read.
pub fn read_arguments(
    alloc: Global,
    command: CommandName,
    parts: Args<'_>,
) -> Result<Command, ArgFault>
    ensures ok { IfOk result (λ made. row_of command 0 parts.entry ≡ Ok made) }
    ensures named { IfOk result (λ made. named_as made ≡ command) }
    ensures within { IfOk result IsReadable }
    ensures fault { IfErr result (λ fault. fault ≢ ArgFault.NoMemory → row_of command 0 parts.entry ≡ Err fault) }
    ensures nothing_left { parts.entry ≡ [] → IfErr result (λ fault. fault ≢ ArgFault.NoMemory) }
{
    let mut arguments = Arguments::new(alloc, parts);
    match command {
        CommandName::Locator(command) => read_locator(command, &mut arguments),
        CommandName::RunControl(command) => read_run_control(command, &mut arguments),
        CommandName::Breakpoints(command) => read_breakpoints(command, &mut arguments),
        CommandName::Memory(command) => read_memory(command, &mut arguments),
        CommandName::Registers(command) => read_registers(command, &mut arguments),
        CommandName::Processes(command) => read_processes(command, &mut arguments),
        CommandName::Trace(command) => read_trace(command, &mut arguments),
    }
}

/// The law that each argument, of any type, is read from the part at its own index.
pub fn arguments_are_in_place<T>()
    ensures { IsAtItsIndex T }
{}

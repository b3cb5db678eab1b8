//! The names of the services' commands.
ghost use Rattle.std.specs.Prelude.{◌≡◌};
ghost use Rattle.service_names.specs.Named.{named};
ghost use Rattle.service_names.specs.Commands.{NamesAreExact, named_as, name_in, name_of, service_of, locator_name, run_control_name, breakpoints_name, memory_name, registers_name, processes_name, trace_name, locator_in, run_control_in, breakpoints_in, memory_in, registers_in, processes_in, trace_in, breakpoints_changing, breakpoints_asking};

use tcf_values::Command;

/// The commands of the service Locator.
#[derive(Clone, Copy, Debug, PartialEq, Eq)]
pub enum LocatorCommand {
    Sync,
    GetPeers,
    Redirect,
}

/// The commands of the service RunControl.
#[derive(Clone, Copy, Debug, PartialEq, Eq)]
pub enum RunControlCommand {
    GetContext,
    GetChildren,
    GetState,
    Resume,
    Suspend,
    Terminate,
}

/// The commands of the service Breakpoints.
#[derive(Clone, Copy, Debug, PartialEq, Eq)]
pub enum BreakpointsCommand {
    Set,
    Add,
    Change,
    Enable,
    Disable,
    Remove,
    GetIds,
    GetProperties,
    GetStatus,
    GetCapabilities,
}

/// The commands of the service Memory.
#[derive(Clone, Copy, Debug, PartialEq, Eq)]
pub enum MemoryCommand {
    Get,
    Set,
}

/// The commands of the service Registers.
#[derive(Clone, Copy, Debug, PartialEq, Eq)]
pub enum RegistersCommand {
    Get,
    Set,
    Getm,
    Setm,
}

/// The commands of the service Processes.
#[derive(Clone, Copy, Debug, PartialEq, Eq)]
pub enum ProcessesCommand {
    GetContext,
    GetChildren,
    Start,
    Attach,
    Detach,
    Terminate,
}

/// The commands of the service Trace, which is this project's own.
#[derive(Clone, Copy, Debug, PartialEq, Eq)]
pub enum TraceCommand {
    Run,
}

/// A command by its service and its name.
#[derive(Clone, Copy, Debug, PartialEq, Eq)]
pub enum CommandName {
    Locator(LocatorCommand),
    RunControl(RunControlCommand),
    Breakpoints(BreakpointsCommand),
    Memory(MemoryCommand),
    Registers(RegistersCommand),
    Processes(ProcessesCommand),
    Trace(TraceCommand),
}

/// The command of Locator that has the name.
fn locator_command(name: &[u8]) -> Option<LocatorCommand>
    ensures { result ≡ locator_in name.now }
{
    if name == b"sync".as_slice() {
        Some(LocatorCommand::Sync)
    } else if name == b"getPeers".as_slice() {
        Some(LocatorCommand::GetPeers)
    } else if name == b"redirect".as_slice() {
        Some(LocatorCommand::Redirect)
    } else {
        None
    }
}

/// The command of RunControl that has the name.
fn run_control_command(name: &[u8]) -> Option<RunControlCommand>
    ensures { result ≡ run_control_in name.now }
{
    if name == b"getContext".as_slice() {
        Some(RunControlCommand::GetContext)
    } else if name == b"getChildren".as_slice() {
        Some(RunControlCommand::GetChildren)
    } else if name == b"getState".as_slice() {
        Some(RunControlCommand::GetState)
    } else if name == b"resume".as_slice() {
        Some(RunControlCommand::Resume)
    } else if name == b"suspend".as_slice() {
        Some(RunControlCommand::Suspend)
    } else if name == b"terminate".as_slice() {
        Some(RunControlCommand::Terminate)
    } else {
        None
    }
}

/// The command with the name, of those that change the list of breakpoints.
fn breakpoints_changing_command(name: &[u8]) -> Option<BreakpointsCommand>
    ensures { result ≡ named breakpoints_name breakpoints_changing name.now }
{
    if name == b"set".as_slice() {
        Some(BreakpointsCommand::Set)
    } else if name == b"add".as_slice() {
        Some(BreakpointsCommand::Add)
    } else if name == b"change".as_slice() {
        Some(BreakpointsCommand::Change)
    } else if name == b"enable".as_slice() {
        Some(BreakpointsCommand::Enable)
    } else if name == b"disable".as_slice() {
        Some(BreakpointsCommand::Disable)
    } else if name == b"remove".as_slice() {
        Some(BreakpointsCommand::Remove)
    } else {
        None
    }
}

/// The command with the name, of those that ask for breakpoints.
fn breakpoints_asking_command(name: &[u8]) -> Option<BreakpointsCommand>
    ensures { result ≡ named breakpoints_name breakpoints_asking name.now }
{
    if name == b"getIDs".as_slice() {
        Some(BreakpointsCommand::GetIds)
    } else if name == b"getProperties".as_slice() {
        Some(BreakpointsCommand::GetProperties)
    } else if name == b"getStatus".as_slice() {
        Some(BreakpointsCommand::GetStatus)
    } else if name == b"getCapabilities".as_slice() {
        Some(BreakpointsCommand::GetCapabilities)
    } else {
        None
    }
}

/// The command of Breakpoints that has the name.
fn breakpoints_command(name: &[u8]) -> Option<BreakpointsCommand>
    ensures { result ≡ breakpoints_in name.now }
{
    match breakpoints_changing_command(name) {
        Some(command) => Some(command),
        None => breakpoints_asking_command(name),
    }
}

/// The command of Memory that has the name.
fn memory_command(name: &[u8]) -> Option<MemoryCommand>
    ensures { result ≡ memory_in name.now }
{
    if name == b"get".as_slice() {
        Some(MemoryCommand::Get)
    } else if name == b"set".as_slice() {
        Some(MemoryCommand::Set)
    } else {
        None
    }
}

/// The command of Registers that has the name.
fn registers_command(name: &[u8]) -> Option<RegistersCommand>
    ensures { result ≡ registers_in name.now }
{
    if name == b"get".as_slice() {
        Some(RegistersCommand::Get)
    } else if name == b"set".as_slice() {
        Some(RegistersCommand::Set)
    } else if name == b"getm".as_slice() {
        Some(RegistersCommand::Getm)
    } else if name == b"setm".as_slice() {
        Some(RegistersCommand::Setm)
    } else {
        None
    }
}

/// The command of Processes that has the name.
fn processes_command(name: &[u8]) -> Option<ProcessesCommand>
    ensures { result ≡ processes_in name.now }
{
    if name == b"getContext".as_slice() {
        Some(ProcessesCommand::GetContext)
    } else if name == b"getChildren".as_slice() {
        Some(ProcessesCommand::GetChildren)
    } else if name == b"start".as_slice() {
        Some(ProcessesCommand::Start)
    } else if name == b"attach".as_slice() {
        Some(ProcessesCommand::Attach)
    } else if name == b"detach".as_slice() {
        Some(ProcessesCommand::Detach)
    } else if name == b"terminate".as_slice() {
        Some(ProcessesCommand::Terminate)
    } else {
        None
    }
}

/// The command of Trace that has the name.
fn trace_command(name: &[u8]) -> Option<TraceCommand>
    ensures { result ≡ trace_in name.now }
{
    if name == b"run".as_slice() {
        Some(TraceCommand::Run)
    } else {
        None
    }
}

/// The command of this service and name. `None` comes exactly where the services have no such command.
pub fn command_named(service: &[u8], name: &[u8]) -> Option<CommandName>
    ensures { result ≡ name_in service.now name.now }
{
    if service == b"Locator".as_slice() {
        locator_command(name).map(CommandName::Locator)
    } else if service == b"RunControl".as_slice() {
        run_control_command(name).map(CommandName::RunControl)
    } else if service == b"Breakpoints".as_slice() {
        breakpoints_command(name).map(CommandName::Breakpoints)
    } else if service == b"Memory".as_slice() {
        memory_command(name).map(CommandName::Memory)
    } else if service == b"Registers".as_slice() {
        registers_command(name).map(CommandName::Registers)
    } else if service == b"Processes".as_slice() {
        processes_command(name).map(CommandName::Processes)
    } else if service == b"Trace".as_slice() {
        trace_command(name).map(CommandName::Trace)
    } else {
        None
    }
}

/// The name of a command of Locator.
fn locator_text(command: LocatorCommand) -> &'static str
    ensures { result.now ≡ locator_name command }
{
    match command {
        LocatorCommand::Sync => "sync",
        LocatorCommand::GetPeers => "getPeers",
        LocatorCommand::Redirect => "redirect",
    }
}

/// The name of a command of RunControl.
fn run_control_text(command: RunControlCommand) -> &'static str
    ensures { result.now ≡ run_control_name command }
{
    match command {
        RunControlCommand::GetContext => "getContext",
        RunControlCommand::GetChildren => "getChildren",
        RunControlCommand::GetState => "getState",
        RunControlCommand::Resume => "resume",
        RunControlCommand::Suspend => "suspend",
        RunControlCommand::Terminate => "terminate",
    }
}

/// The name of a command of Breakpoints.
fn breakpoints_text(command: BreakpointsCommand) -> &'static str
    ensures { result.now ≡ breakpoints_name command }
{
    match command {
        BreakpointsCommand::Set => "set",
        BreakpointsCommand::Add => "add",
        BreakpointsCommand::Change => "change",
        BreakpointsCommand::Enable => "enable",
        BreakpointsCommand::Disable => "disable",
        BreakpointsCommand::Remove => "remove",
        BreakpointsCommand::GetIds => "getIDs",
        BreakpointsCommand::GetProperties => "getProperties",
        BreakpointsCommand::GetStatus => "getStatus",
        BreakpointsCommand::GetCapabilities => "getCapabilities",
    }
}

/// The name of a command of Memory.
fn memory_text(command: MemoryCommand) -> &'static str
    ensures { result.now ≡ memory_name command }
{
    match command {
        MemoryCommand::Get => "get",
        MemoryCommand::Set => "set",
    }
}

/// The name of a command of Registers.
fn registers_text(command: RegistersCommand) -> &'static str
    ensures { result.now ≡ registers_name command }
{
    match command {
        RegistersCommand::Get => "get",
        RegistersCommand::Set => "set",
        RegistersCommand::Getm => "getm",
        RegistersCommand::Setm => "setm",
    }
}

/// The name of a command of Processes.
fn processes_text(command: ProcessesCommand) -> &'static str
    ensures { result.now ≡ processes_name command }
{
    match command {
        ProcessesCommand::GetContext => "getContext",
        ProcessesCommand::GetChildren => "getChildren",
        ProcessesCommand::Start => "start",
        ProcessesCommand::Attach => "attach",
        ProcessesCommand::Detach => "detach",
        ProcessesCommand::Terminate => "terminate",
    }
}

/// The name of a command of Trace.
fn trace_text(command: TraceCommand) -> &'static str
    ensures { result.now ≡ trace_name command }
{
    match command {
        TraceCommand::Run => "run",
    }
}

impl CommandName {
    /// The service.
    pub fn service(self) -> &'static str
        ensures { result.now ≡ service_of self }
    {
        match self {
            CommandName::Locator(_) => "Locator",
            CommandName::RunControl(_) => "RunControl",
            CommandName::Breakpoints(_) => "Breakpoints",
            CommandName::Memory(_) => "Memory",
            CommandName::Registers(_) => "Registers",
            CommandName::Processes(_) => "Processes",
            CommandName::Trace(_) => "Trace",
        }
    }

    /// The name in the service.
    pub fn name(self) -> &'static str
        ensures { result.now ≡ name_of self }
    {
        match self {
            CommandName::Locator(command) => locator_text(command),
            CommandName::RunControl(command) => run_control_text(command),
            CommandName::Breakpoints(command) => breakpoints_text(command),
            CommandName::Memory(command) => memory_text(command),
            CommandName::Registers(command) => registers_text(command),
            CommandName::Processes(command) => processes_text(command),
            CommandName::Trace(command) => trace_text(command),
        }
    }
}

/// The name of a command.
pub fn name_of_command(command: &Command) -> CommandName
    ensures { result ≡ named_as command.now }
{
    match command {
        Command::Sync => CommandName::Locator(LocatorCommand::Sync),
        Command::GetPeers => CommandName::Locator(LocatorCommand::GetPeers),
        Command::Redirect { .. } => CommandName::Locator(LocatorCommand::Redirect),
        Command::GetContext { .. } => CommandName::RunControl(RunControlCommand::GetContext),
        Command::GetChildren { .. } => CommandName::RunControl(RunControlCommand::GetChildren),
        Command::GetState { .. } => CommandName::RunControl(RunControlCommand::GetState),
        Command::Resume { .. } => CommandName::RunControl(RunControlCommand::Resume),
        Command::Suspend { .. } => CommandName::RunControl(RunControlCommand::Suspend),
        Command::Terminate { .. } => CommandName::RunControl(RunControlCommand::Terminate),
        Command::BpSet { .. } => CommandName::Breakpoints(BreakpointsCommand::Set),
        Command::BpAdd { .. } => CommandName::Breakpoints(BreakpointsCommand::Add),
        Command::BpChange { .. } => CommandName::Breakpoints(BreakpointsCommand::Change),
        Command::BpEnable { .. } => CommandName::Breakpoints(BreakpointsCommand::Enable),
        Command::BpDisable { .. } => CommandName::Breakpoints(BreakpointsCommand::Disable),
        Command::BpRemove { .. } => CommandName::Breakpoints(BreakpointsCommand::Remove),
        Command::BpIds => CommandName::Breakpoints(BreakpointsCommand::GetIds),
        Command::BpProperties { .. } => CommandName::Breakpoints(BreakpointsCommand::GetProperties),
        Command::BpGetStatus { .. } => CommandName::Breakpoints(BreakpointsCommand::GetStatus),
        Command::BpCapabilities { .. } => CommandName::Breakpoints(
            BreakpointsCommand::GetCapabilities,
        ),
        Command::MemGet { .. } => CommandName::Memory(MemoryCommand::Get),
        Command::MemSet { .. } => CommandName::Memory(MemoryCommand::Set),
        Command::RegGet { .. } => CommandName::Registers(RegistersCommand::Get),
        Command::RegSet { .. } => CommandName::Registers(RegistersCommand::Set),
        Command::RegGetm { .. } => CommandName::Registers(RegistersCommand::Getm),
        Command::RegSetm { .. } => CommandName::Registers(RegistersCommand::Setm),
        Command::ProcContext { .. } => CommandName::Processes(ProcessesCommand::GetContext),
        Command::ProcChildren { .. } => CommandName::Processes(ProcessesCommand::GetChildren),
        Command::ProcStart { .. } => CommandName::Processes(ProcessesCommand::Start),
        Command::ProcAttach { .. } => CommandName::Processes(ProcessesCommand::Attach),
        Command::ProcDetach { .. } => CommandName::Processes(ProcessesCommand::Detach),
        Command::ProcTerminate { .. } => CommandName::Processes(ProcessesCommand::Terminate),
        Command::TraceRun { .. } => CommandName::Trace(TraceCommand::Run),
    }
}

/// The law that a service and a name stand for a command exactly where they are the command's.
pub fn names_are_exact()
    ensures { NamesAreExact }
{}

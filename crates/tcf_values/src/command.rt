//! The commands of the services, each with the arguments of its row, and which of them are changing.
ghost use Rattle.std.specs.Prelude.{◌≡◌};
ghost use Rattle.tcf_values.specs.Changing.{changes};
ghost use Rattle.tcf_values.specs.Storable.{stores};

use crate::text::{Bytes, Text, Texts};
use crate::values::{BpProps, Locations, Props};

/// A command. A variant has a field for each argument, in the order in which they are sent. Numbers are as a peer
/// sends them, so they can be any whole number.
#[derive(Debug, Drop)]
pub enum Command {
    /// Locator.sync
    Sync,
    /// Locator.getPeers
    GetPeers,
    /// Locator.redirect, to the peer of this ID
    Redirect {
        peer: Text,
    },
    /// RunControl.getContext
    GetContext {
        id: Text,
    },
    /// RunControl.getChildren
    GetChildren {
        id: Text,
    },
    /// RunControl.getState
    GetState {
        id: Text,
    },
    /// RunControl.resume: mode 0 goes on, and mode 2 steps count instructions
    Resume {
        id: Text,
        mode: i128,
        count: i128,
    },
    /// RunControl.suspend
    Suspend {
        id: Text,
    },
    /// RunControl.terminate
    Terminate {
        id: Text,
    },
    /// Breakpoints.set, in place of the channel's own
    BpSet {
        list: Props,
    },
    /// Breakpoints.add
    BpAdd {
        props: BpProps,
    },
    /// Breakpoints.change
    BpChange {
        props: BpProps,
    },
    /// Breakpoints.enable
    BpEnable {
        ids: Texts,
    },
    /// Breakpoints.disable
    BpDisable {
        ids: Texts,
    },
    /// Breakpoints.remove
    BpRemove {
        ids: Texts,
    },
    /// Breakpoints.getIDs
    BpIds,
    /// Breakpoints.getProperties
    BpProperties {
        id: Text,
    },
    /// Breakpoints.getStatus
    BpGetStatus {
        id: Text,
    },
    /// Breakpoints.getCapabilities
    BpCapabilities {
        id: Text,
    },
    /// Memory.get, of size bytes from addr
    MemGet {
        id: Text,
        addr: i128,
        word: i128,
        size: i128,
        mode: i128,
    },
    /// Memory.set, of size bytes from addr
    MemSet {
        id: Text,
        addr: i128,
        word: i128,
        size: i128,
        mode: i128,
        bytes: Bytes,
    },
    /// Registers.get
    RegGet {
        id: Text,
    },
    /// Registers.set
    RegSet {
        id: Text,
        bytes: Bytes,
    },
    /// Registers.getm
    RegGetm {
        list: Locations,
    },
    /// Registers.setm
    RegSetm {
        list: Locations,
        bytes: Bytes,
    },
    /// Processes.getContext
    ProcContext {
        id: Text,
    },
    /// Processes.getChildren
    ProcChildren {
        id: Text,
        attached: bool,
    },
    /// Processes.start
    ProcStart {
        directory: Text,
        file: Text,
        args: Texts,
        environment: Texts,
        attach: bool,
    },
    /// Processes.attach
    ProcAttach {
        id: Text,
    },
    /// Processes.detach
    ProcDetach {
        id: Text,
    },
    /// Processes.terminate
    ProcTerminate {
        id: Text,
    },
    /// Trace.run, of at most count instructions. Trace is this project's own service.
    TraceRun {
        id: Text,
        count: i128,
    },
}

/// Whether the command can change a target, a breakpoint or a channel, where it is executed.
pub fn is_changing(command: &Command) -> bool
    ensures { result ≡ changes command.now }
{
    match command {
        Command::Redirect { .. } => true,
        Command::Resume { .. } | Command::Suspend { .. } | Command::Terminate { .. } => true,
        Command::BpSet { .. } | Command::BpAdd { .. } | Command::BpChange { .. } => true,
        Command::BpEnable { .. } | Command::BpDisable { .. } | Command::BpRemove { .. } => true,
        Command::MemSet { .. } | Command::RegSet { .. } | Command::RegSetm { .. } => true,
        Command::ProcStart { .. } | Command::ProcAttach { .. } | Command::ProcDetach { .. } => true,
        Command::ProcTerminate { .. } | Command::TraceRun { .. } => true,
        _ => false,
    }
}

/// Whether a value-add may answer the command itself, from what it has learned.
pub fn is_storable(command: &Command) -> bool
    ensures { result ≡ stores command.now }
{
    match command {
        Command::GetContext { .. } | Command::GetState { .. } => true,
        Command::BpProperties { .. } | Command::BpGetStatus { .. } => true,
        Command::RegGet { .. } | Command::RegGetm { .. } | Command::MemGet { .. } => true,
        _ => false,
    }
}

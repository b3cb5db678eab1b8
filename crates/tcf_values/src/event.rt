//! What the services tell of their own accord.
use crate::text::{Text, Texts};
use crate::values::{BpStatus, Contexts, Props, Ranges};

/// An event. A variant has a field for each argument, in the order in which they are sent.
#[derive(Debug, Drop)]
pub enum EventData {
    /// Locator.Hello, with the names of the services
    Hello {
        list: Texts,
    },
    /// RunControl.contextAdded
    CtxAdded {
        list: Contexts,
    },
    /// RunControl.contextChanged
    CtxChanged {
        list: Contexts,
    },
    /// RunControl.contextRemoved, with their IDs
    CtxRemoved {
        list: Texts,
    },
    /// RunControl.contextSuspended, with the IDs of the breakpoints that were hit
    Suspended {
        id: Text,
        pc: u32,
        reason: Text,
        hits: Texts,
    },
    /// RunControl.contextResumed
    Resumed {
        id: Text,
    },
    /// Breakpoints.status
    BpStatusIs {
        id: Text,
        status: BpStatus,
    },
    /// Breakpoints.contextAdded
    BpAdded {
        list: Props,
    },
    /// Breakpoints.contextChanged
    BpChanged {
        list: Props,
    },
    /// Breakpoints.contextRemoved, with their IDs
    BpRemoved {
        list: Texts,
    },
    /// Memory.memoryChanged, in the process of this ID
    MemChanged {
        id: Text,
        list: Ranges,
    },
    /// Registers.registerChanged
    RegChanged {
        id: Text,
    },
    /// Registers.contextChanged: any register may have changed
    RegsChanged,
    /// Processes.exited, with the code of the exit
    Exited {
        id: Text,
        code: i128,
    },
}

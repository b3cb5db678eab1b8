//! What the services tell of contexts, processes, breakpoints, registers and memory (TCF services RunControl,
//! Processes, Breakpoints, Registers and Memory).
ghost use Rattle.std.specs.Prelude.{◌≡◌, IfOk};

use crate::text::{Text, Texts};
use std::alloc::AllocError;
use tcf_outside::{Duplicate, Sequence};

/// What RunControl tells of a process or a thread.
#[derive(Debug, Drop)]
pub struct ContextData {
    /// The ID of the process or of the thread.
    pub id: Text,
    /// The ID of a thread's process. A process has none.
    pub parent: Option<Text>,
    /// The ID of the process that the context belongs to; a process's own ID.
    pub process: Text,
    /// The name of a process. A thread has none.
    pub name: Option<Text>,
    /// Whether other contexts can stand below this one.
    pub container: bool,
    /// Whether it runs or is suspended, as a thread is.
    pub has_state: bool,
    pub can_suspend: bool,
    pub can_terminate: bool,
    /// A bit for each mode in which it can be resumed, the bit 2^mode.
    pub can_resume: u32,
    /// A bit for each mode that takes a count, the bit 2^mode.
    pub can_count: u32,
}

/// What Processes tells of a process.
#[derive(Debug, Drop)]
pub struct ProcessData {
    pub id: Text,
    pub name: Text,
    /// Whether the debugger is attached to it.
    pub attached: bool,
    pub can_terminate: bool,
}

/// Whether a thread runs. One that is suspended has its pc, the reason in words, and the IDs of the breakpoints
/// that it hit.
#[derive(Debug, Drop)]
pub enum RunState {
    Running,
    Suspended { pc: u32, reason: Text, hits: Texts },
}

/// The properties of a breakpoint. What is absent is none.
#[derive(Debug, Drop)]
pub struct BpProps {
    pub id: Text,
    pub enabled: bool,
    /// Where it stands, as text: an address in decimal or hexadecimal digits.
    pub location: Option<Text>,
    /// The IDs of the contexts that it is for; all of them where it is absent.
    pub contexts: Option<Texts>,
    /// How many hits pass before one stops a thread; none where it is absent.
    pub ignore: Option<u32>,
}

/// Where a breakpoint stands in a process: its address, or why it has none.
#[derive(Debug, Drop)]
pub enum Place {
    Address(u32),
    Error(Text),
}

/// A breakpoint in one process.
#[derive(Debug, Drop)]
pub struct Instance {
    /// The ID of the process.
    pub context: Text,
    pub place: Place,
    /// How often it was hit there; 0 where it has no address.
    pub count: u32,
}

/// The instances of a breakpoint.
#[derive(Debug, Drop)]
pub struct BpStatus {
    pub instances: Instances,
}

/// A part of a register: its ID, the first byte, and how many bytes. As a peer sends them, the numbers can be any.
#[derive(Debug, Drop)]
pub struct Location {
    pub register: Text,
    pub offset: i128,
    pub size: i128,
}

/// A range of memory: the first address, and how many bytes. As a peer sends them, the numbers can be any.
#[derive(Clone, Copy, Debug, PartialEq, Eq)]
pub struct Range {
    pub addr: i128,
    pub size: i128,
}

pub type Instances = Sequence<Instance>;

pub type Contexts = Sequence<ContextData>;

pub type Props = Sequence<BpProps>;

pub type Locations = Sequence<Location>;

pub type Ranges = Sequence<Range>;

/// A copy of what is there.
fn copy_of<T: Duplicate>(source: &Option<T>) -> Result<Option<T>, AllocError>
    ensures { IfOk result (λ twin. twin ≡ source.now) }
{
    match source {
        Some(item) => Ok(Some(item.copy()?)),
        None => Ok(None),
    }
}

impl Duplicate for ContextData {
    fn copy(&self) -> Result<Self, AllocError> {
        Ok(ContextData {
            id: self.id.copy()?,
            parent: copy_of(&self.parent)?,
            process: self.process.copy()?,
            name: copy_of(&self.name)?,
            container: self.container,
            has_state: self.has_state,
            can_suspend: self.can_suspend,
            can_terminate: self.can_terminate,
            can_resume: self.can_resume,
            can_count: self.can_count,
        })
    }
}

impl Duplicate for ProcessData {
    fn copy(&self) -> Result<Self, AllocError> {
        Ok(ProcessData {
            id: self.id.copy()?,
            name: self.name.copy()?,
            attached: self.attached,
            can_terminate: self.can_terminate,
        })
    }
}

impl Duplicate for BpProps {
    fn copy(&self) -> Result<Self, AllocError> {
        Ok(BpProps {
            id: self.id.copy()?,
            enabled: self.enabled,
            location: copy_of(&self.location)?,
            contexts: copy_of(&self.contexts)?,
            ignore: self.ignore,
        })
    }
}

impl Duplicate for Place {
    fn copy(&self) -> Result<Self, AllocError> {
        match self {
            Place::Address(address) => Ok(Place::Address(*address)),
            Place::Error(error) => Ok(Place::Error(error.copy()?)),
        }
    }
}

impl Duplicate for Instance {
    fn copy(&self) -> Result<Self, AllocError> {
        Ok(Instance {
            context: self.context.copy()?,
            place: self.place.copy()?,
            count: self.count,
        })
    }
}

impl Duplicate for BpStatus {
    fn copy(&self) -> Result<Self, AllocError> {
        Ok(BpStatus {
            instances: self.instances.copy()?,
        })
    }
}

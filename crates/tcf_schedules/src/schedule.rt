//! Schedules: the images, the chains and the steps that a world is to play, and how a file of lines says them.
ghost use Rattle.std.specs.Prelude.{◌≡◌};

use cached_lines::CachedWhat;
use std::alloc::{AllocError, AllocFailed};
use tcf_outside::{Octets, Sequence};
use tcf_values::{Bytes, ContextId, Text};

/// One step of a schedule. A chain is given by its place in the schedule's header, from 0. The nodes of a chain are
/// its client, 0, its value-adds, and behind them the agent; hop h joins node h and node h + 1.
#[derive(Debug, Drop)]
pub enum ScheduleStep {
    /// The chain's client connects.
    Opens {
        chain: usize,
    },
    /// The chain's client sends a command.
    Send {
        chain: usize,
        service: Octets,
        name: Octets,
        body: Octets,
    },
    /// The next bytes in flight on a hop arrive as one piece: so many, from 1 to 65,536, or as many as there are. They
    /// go up, towards the agent, or down.
    Deliver {
        chain: usize,
        hop: usize,
        up: bool,
        count: u32,
    },
    /// A node takes one message that travels up, or down. The client takes none that travels up, and the agent none
    /// that travels down.
    Turn {
        chain: usize,
        node: usize,
        up: bool,
    },
    /// A running thread executes one instruction.
    Tick {
        thread: ContextId,
    },
    /// The chain's client closes its channel.
    Close {
        chain: usize,
    },
    /// The connection of a hop is lost, with all that is in flight on it.
    Cut {
        chain: usize,
        hop: usize,
    },
    /// What the cache of the chain's client knows is written to its log.
    Cached {
        chain: usize,
        what: CachedWhat,
    },
    /// So many rounds, from 1 to 10,000, in each of which all that is in flight arrives and is taken.
    Rounds {
        count: u32,
    },
    /// The step so many times, from 1 to 10,000. It is neither rounds nor a repetition itself.
    Times {
        count: u32,
        step: Box<ScheduleStep>,
    },
}

pub type ScheduleSteps = Sequence<ScheduleStep>;

/// An image that the target can start: its name, and its bytes as they are loaded.
#[derive(Debug, Drop)]
pub struct NamedImage {
    pub name: Text,
    pub bytes: Bytes,
}

pub type NamedImages = Sequence<NamedImage>;

/// A chain of a schedule: its name, and how many value-adds stand between its client and the agent.
#[derive(Debug, Drop)]
pub struct ChainHead {
    pub name: Octets,
    pub adds: usize,
}

pub type ChainHeads = Sequence<ChainHead>;

/// What a file of lines says: the images and the chains of its header, and its steps, each in order.
#[derive(Debug, Drop)]
pub struct Schedule {
    pub images: NamedImages,
    pub chains: ChainHeads,
    pub steps: ScheduleSteps,
}

/// What is wrong with a line: the first of these causes that holds of it.
#[derive(Clone, Copy, Debug, PartialEq, Eq)]
pub enum TextFault {
    /// The line has no form of a schedule's line, or a number that is out of its range.
    Form,
    /// A line of the header stands behind a step.
    Late,
    /// The name was given to another image, or to another chain.
    Repeat,
    /// The chain, the hop or the node isn't there, or the node takes nothing that travels in this direction.
    Unknown,
    /// With this line there are more than 64 chains, or more than 1,000,000 steps, where each round and each
    /// repetition counts as one.
    Many,
}

/// Why a file gives no schedule: its first bad line, counted from 1, or want of memory.
#[derive(Clone, Copy, Debug, PartialEq, Eq)]
pub enum TextRefusal {
    Bad { line: u64, what: TextFault },
    NoMemory,
}

impl From<AllocError> for TextRefusal {
    ghost use Rattle.tcf_schedules.specs.declared.schedule.TextRefusal.TheVariants.{NoMemory};

    ghost from_gives = { λ _ refusal. refusal ≡ NoMemory };

    fn from(_error: AllocError) -> Self {
        TextRefusal::NoMemory
    }
}

impl<T: Drop> From<AllocFailed<T>> for TextRefusal {
    ghost use Rattle.tcf_schedules.specs.declared.schedule.TextRefusal.TheVariants.{NoMemory};

    ghost from_gives = { λ _ refusal. refusal ≡ NoMemory };

    fn from(_failed: AllocFailed<T>) -> Self {
        TextRefusal::NoMemory
    }
}

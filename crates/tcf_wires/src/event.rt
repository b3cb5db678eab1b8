//! What the calls of the wires answer.
ghost use Rattle.std.specs.Prelude.{◌≡◌};

use std::alloc::{AllocError, AllocFailed};
use tcf_outside::{Duplicate, Octets};

/// What came over the wires. Each connection has a number of its own, its channel.
#[derive(Debug, Drop)]
pub enum WireEvent {
    /// A peer connected: the number of the new channel.
    Opened(u64),
    /// Bytes came on a channel: 1 to 65,536 of them.
    Piece(u64, Octets),
    /// The peer of a channel has ended its sending in good order, and sends nothing more.
    Ended(u64),
    /// The connection of a channel broke, and nothing more comes on it.
    Lost(u64),
    /// Nothing is there: nothing came for a while, or the wires don't wait and each connection has had its turn.
    Idle,
    /// Nothing more is to be served.
    Stop,
}

impl Duplicate for WireEvent {
    fn copy(&self) -> Result<Self, AllocError> {
        Ok(match self {
            WireEvent::Opened(channel) => WireEvent::Opened(*channel),
            WireEvent::Piece(channel, bytes) => WireEvent::Piece(*channel, bytes.copy()?),
            WireEvent::Ended(channel) => WireEvent::Ended(*channel),
            WireEvent::Lost(channel) => WireEvent::Lost(*channel),
            WireEvent::Idle => WireEvent::Idle,
            WireEvent::Stop => WireEvent::Stop,
        })
    }
}

/// Why a call of the wires gives nothing: a fault of the outside, or want of memory.
#[derive(Clone, Copy, Debug, PartialEq, Eq)]
pub enum WireRefusal {
    /// The outside refused the call, which raised the count of faults.
    Failed,
    /// Want of memory: the call did nothing, and isn't told.
    NoMemory,
}

impl From<AllocError> for WireRefusal {
    ghost use Rattle.tcf_wires.specs.declared.event.WireRefusal.TheVariants.{NoMemory};

    ghost from_gives = { λ _ refusal. refusal ≡ NoMemory };

    fn from(_error: AllocError) -> Self {
        WireRefusal::NoMemory
    }
}

impl<T: Drop> From<AllocFailed<T>> for WireRefusal {
    ghost use Rattle.tcf_wires.specs.declared.event.WireRefusal.TheVariants.{NoMemory};

    ghost from_gives = { λ _ refusal. refusal ≡ NoMemory };

    fn from(_failed: AllocFailed<T>) -> Self {
        WireRefusal::NoMemory
    }
}

/// What became of the bytes that were put on a channel.
#[derive(Clone, Copy, Debug, PartialEq, Eq)]
pub enum Put {
    /// So many of the piece's first bytes were taken, at most all of them. None is no fault: the wire is full.
    Took(usize),
    /// The channel takes nothing any more: a fault of the outside, which raised the count of faults.
    Lost,
    /// Want of memory: nothing was taken, and the call isn't told.
    NoMemory,
}

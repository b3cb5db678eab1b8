//! What a stream is read as: its items, and the faults that end it.
ghost use Rattle.std.specs.Prelude.{◌≡◌};

use std::alloc::{AllocError, AllocFailed};
use tcf_outside::Octets;

/// The most bytes that a message has, before they are escaped.
pub const MESSAGE_LIMIT: usize = 1_049_600;

/// What a stream has in order: its messages without their escapes, and then its end, if that came.
#[derive(Debug, Drop)]
pub enum Item {
    Message(Octets),
    End,
}

/// Why no more of a stream is read. An offset counts the bytes of the stream before the refused one, and stands
/// still at 2^64 - 1.
#[derive(Clone, Copy, Debug, PartialEq, Eq)]
pub enum StreamFault {
    /// The byte, 3 or more, stands behind an escape.
    BadEscape { offset: u64, byte: u8 },
    /// With this byte the message has more than `MESSAGE_LIMIT` bytes.
    TooLong { offset: u64 },
    /// The byte stands behind the end of the stream.
    AfterEnd { offset: u64 },
    /// The stream is not at fault. How much of it was read isn't known any more.
    NoMemory,
}

impl From<AllocError> for StreamFault {
    ghost use Rattle.stream_escape.specs.declared.stream.StreamFault.TheVariants.{NoMemory};

    ghost from_gives = { λ _ fault. fault ≡ NoMemory };

    fn from(_error: AllocError) -> Self {
        StreamFault::NoMemory
    }
}

impl<T: Drop> From<AllocFailed<T>> for StreamFault {
    ghost use Rattle.stream_escape.specs.declared.stream.StreamFault.TheVariants.{NoMemory};

    ghost from_gives = { λ _ fault. fault ≡ NoMemory };

    fn from(_failed: AllocFailed<T>) -> Self {
        StreamFault::NoMemory
    }
}

//! Why an argument can't be read.
ghost use Rattle.std.specs.Prelude.{◌≡◌};

use std::alloc::{AllocError, AllocFailed};
use thiserror::Error;

/// Why the arguments of a body, or one of them, can't be read. The index counts the arguments from 0.
#[derive(Clone, Copy, Debug, PartialEq, Eq, Error)]
pub enum ArgFault {
    /// The body isn't empty, and its last byte isn't zero.
    #[error("the last argument isn't ended")]
    NotEnded,
    /// The body has no such argument.
    #[error("argument {index} is missing")]
    Missing { index: usize },
    /// The argument is no JSON text in UTF-8.
    #[error("argument {index} is no JSON")]
    Syntax { index: usize },
    /// The argument is JSON of another kind.
    #[error("argument {index} is of another kind")]
    Shape { index: usize },
    /// The argument is a text that isn't padded standard base64.
    #[error("argument {index} isn't base64")]
    Base64 { index: usize },
    /// There was no memory. It says nothing of the argument.
    #[error("out of memory")]
    NoMemory,
}

impl From<AllocError> for ArgFault {
    ghost use Rattle.json_args.specs.declared.fault.ArgFault.TheVariants.{NoMemory};

    ghost from_gives = { λ _ fault. fault ≡ NoMemory };

    fn from(_error: AllocError) -> Self {
        ArgFault::NoMemory
    }
}

impl<T: Drop> From<AllocFailed<T>> for ArgFault {
    ghost use Rattle.json_args.specs.declared.fault.ArgFault.TheVariants.{NoMemory};

    ghost from_gives = { λ _ fault. fault ≡ NoMemory };

    fn from(_failed: AllocFailed<T>) -> Self {
        ArgFault::NoMemory
    }
}

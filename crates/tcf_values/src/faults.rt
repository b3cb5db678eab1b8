//! Why a command fails where it is executed (TCF protocol, error reports).
ghost use Rattle.std.specs.Prelude.{◌≡◌, IsSome};
ghost use Rattle.tcf_values.specs.Errors.{format_of};
ghost use Rattle.tcf_values.specs.Faults.{code_of};

use std::alloc::{AllocError, AllocFailed};

/// The check that an executed command fails. Each has the code of its error report.
#[derive(Clone, Copy, Debug, PartialEq, Eq)]
pub enum Fault {
    /// 1, `other`: what has no code of its own.
    Other,
    /// 10, `already-stopped`: the thread is suspended.
    AlreadyStopped,
    /// 12, `already-running`: the thread runs.
    AlreadyRunning,
    /// 13, `already-attached`: the debugger is attached to the process.
    AlreadyAttached,
    /// 14, `is-running`: registers of a running thread are neither read nor written.
    IsRunning,
    /// 15, `bad-size`: a size or a length is out of its bounds, or not the one that is asked for.
    BadSize,
    /// 16, `bad-context`: there is no such live process, thread or register.
    BadContext,
    /// 17, `bad-address`: an address lies outside memory, or a pc would be no multiple of 4.
    BadAddress,
    /// 20, `bad-number`: a count is out of its bounds.
    BadNumber,
    /// 23, `unsupported`: there is no such mode.
    Unsupported,
}

impl Fault {
    /// The code of the error report.
    pub fn code(self) -> u8
        ensures code { result ≡ code_of self }
        ensures known { IsSome (format_of result) }
    {
        match self {
            Fault::Other => 1,
            Fault::AlreadyStopped => 10,
            Fault::AlreadyRunning => 12,
            Fault::AlreadyAttached => 13,
            Fault::IsRunning => 14,
            Fault::BadSize => 15,
            Fault::BadContext => 16,
            Fault::BadAddress => 17,
            Fault::BadNumber => 20,
            Fault::Unsupported => 23,
        }
    }
}

/// Why a command is not executed: the first check that it fails, or want of memory.
#[derive(Clone, Copy, Debug, PartialEq, Eq)]
pub enum Refusal {
    Due(Fault),
    NoMemory,
}

impl From<Fault> for Refusal {
    ghost use Rattle.tcf_values.specs.declared.faults.Refusal.TheVariants.{Due};

    ghost from_gives = { λ fault refusal. refusal ≡ Due fault };

    fn from(fault: Fault) -> Self {
        Refusal::Due(fault)
    }
}

impl From<AllocError> for Refusal {
    ghost use Rattle.tcf_values.specs.declared.faults.Refusal.TheVariants.{NoMemory};

    ghost from_gives = { λ _ refusal. refusal ≡ NoMemory };

    fn from(_error: AllocError) -> Self {
        Refusal::NoMemory
    }
}

impl<T: Drop> From<AllocFailed<T>> for Refusal {
    ghost use Rattle.tcf_values.specs.declared.faults.Refusal.TheVariants.{NoMemory};

    ghost from_gives = { λ _ refusal. refusal ≡ NoMemory };

    fn from(_failed: AllocFailed<T>) -> Self {
        Refusal::NoMemory
    }
}

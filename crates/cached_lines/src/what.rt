//! What a line asks of a cache, as a value of its own.
use std::alloc::AllocError;
use tcf_outside::{Duplicate, Octets};

/// What a line asks of a client's cache, by its ID.
#[derive(Debug, Drop)]
pub enum CachedWhat {
    /// What RunControl tells of a process or a thread.
    Context { id: Octets },
    /// Whether a thread runs.
    State { id: Octets },
    /// The value of a register.
    Register { id: Octets },
    /// The properties of a breakpoint.
    Properties { id: Octets },
    /// The status of a breakpoint.
    Status { id: Octets },
    /// So many bytes of a process's memory, from 1 to 65,536, from an address of 0 to 65,535 on.
    Bytes { id: Octets, addr: u32, size: u32 },
}

impl Duplicate for CachedWhat {
    fn copy(&self) -> Result<Self, AllocError> {
        match self {
            CachedWhat::Context { id } => Ok(CachedWhat::Context { id: id.copy()? }),
            CachedWhat::State { id } => Ok(CachedWhat::State { id: id.copy()? }),
            CachedWhat::Register { id } => Ok(CachedWhat::Register { id: id.copy()? }),
            CachedWhat::Properties { id } => Ok(CachedWhat::Properties { id: id.copy()? }),
            CachedWhat::Status { id } => Ok(CachedWhat::Status { id: id.copy()? }),
            CachedWhat::Bytes { id, addr, size } => Ok(CachedWhat::Bytes {
                id: id.copy()?,
                addr: *addr,
                size: *size,
            }),
        }
    }
}

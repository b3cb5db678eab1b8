//! Why the cases can't be tried.
use std::alloc::{AllocError, AllocFailed};
use std::io;

/// Why the cases, or one of them, can't be tried.
#[derive(Debug, Drop)]
pub enum Trouble {
    /// A line has none of the forms.
    Form,
    /// There was not enough memory.
    NoMemory,
    /// A file can't be read, or nothing can be printed.
    Outside(io::Error),
}

impl From<AllocError> for Trouble {
    fn from(_error: AllocError) -> Self {
        Trouble::NoMemory
    }
}

impl<T: Drop> From<AllocFailed<T>> for Trouble {
    fn from(_failed: AllocFailed<T>) -> Self {
        Trouble::NoMemory
    }
}

impl From<io::Error> for Trouble {
    fn from(error: io::Error) -> Self {
        Trouble::Outside(error)
    }
}

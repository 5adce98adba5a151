//! Why nothing comes of a row.
use std::alloc::{AllocError, AllocFailed};

/// Why a row isn't held against its subject.
#[derive(Clone, Copy, Debug, PartialEq, Eq)]
pub enum Fault {
    /// The row says nothing that the subject can read.
    Unreadable,
    /// There was no memory to tell.
    Memory,
}

impl From<AllocError> for Fault {
    fn from(_: AllocError) -> Fault {
        Fault::Memory
    }
}

impl<T: Drop> From<AllocFailed<T>> for Fault {
    fn from(_: AllocFailed<T>) -> Fault {
        Fault::Memory
    }
}

//! Why a text isn't read.
use std::alloc::{AllocError, AllocFailed};

/// Why a text isn't read: it isn't in the notation, or memory was wanted.
#[derive(Clone, Copy, Debug, PartialEq, Eq)]
pub enum NotationFault {
    /// No name of the table is written so.
    UnknownName,
    /// The two classes of a sort don't ascend.
    ClassOrder,
    /// An operator takes more types than there are.
    TooFewTypes,
    /// An operator takes more terms than there are.
    TooFewTerms,
    /// More is written than one type, or one term.
    TooMany,
    /// A word of a term is empty.
    NoWord,
    /// Memory was wanted.
    Memory,
}

impl From<AllocError> for NotationFault {
    fn from(_: AllocError) -> NotationFault {
        NotationFault::Memory
    }
}

impl<T: Drop> From<AllocFailed<T>> for NotationFault {
    fn from(_failed: AllocFailed<T>) -> NotationFault {
        NotationFault::Memory
    }
}

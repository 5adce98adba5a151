//! Why a row comes to no theory.
use pure_rows::Outcome;
use pure_theory::DeclFault;
use std::alloc::{AllocError, AllocFailed};

/// Why a declaration is refused, or the merge of parents, with names by their numbers.
#[derive(Clone, Copy, PartialEq, Eq)]
pub(crate) enum Refusal {
    Duplicate,
    NotClosed,
    ExtraType,
    UnknownClass(u32),
    UnknownType(u32),
    WrongCount(u32),
    NotCoregular(u32, u32, u32),
}

/// Why a row comes to no theory.
#[derive(Clone, Copy, PartialEq, Eq)]
pub(crate) enum Stop {
    /// A declaration is refused, or the merge of parents.
    Refused(Refusal),
    /// A theory may not begin so.
    MayNot,
    /// The row can't be read.
    Unreadable,
    /// Memory was wanted.
    Memory,
}

impl Stop {
    /// The same of a fault.
    pub(crate) fn of(fault: DeclFault) -> Stop {
        match fault {
            DeclFault::Duplicate => Stop::Refused(Refusal::Duplicate),
            DeclFault::NotClosed => Stop::Refused(Refusal::NotClosed),
            DeclFault::ExtraType => Stop::Refused(Refusal::ExtraType),
            DeclFault::UnknownClass { class } => Stop::Refused(Refusal::UnknownClass(class.0)),
            DeclFault::UnknownType { name } => Stop::Refused(Refusal::UnknownType(name.0)),
            DeclFault::WrongCount { name } => Stop::Refused(Refusal::WrongCount(name.0)),
            DeclFault::NotCoregular { con, c1, c2 } => {
                Stop::Refused(Refusal::NotCoregular(con.0, c1.0, c2.0))
            }
            DeclFault::Memory => Stop::Memory,
        }
    }

    /// What comes of a row that wants a theory.
    pub(crate) fn outcome(self) -> Outcome {
        match self {
            Stop::Refused(_) | Stop::MayNot => Outcome::Differs,
            Stop::Unreadable => Outcome::Unreadable,
            Stop::Memory => Outcome::Memory,
        }
    }
}

impl From<AllocError> for Stop {
    fn from(_fault: AllocError) -> Stop {
        Stop::Memory
    }
}

impl<T: Drop> From<AllocFailed<T>> for Stop {
    fn from(_failed: AllocFailed<T>) -> Stop {
        Stop::Memory
    }
}

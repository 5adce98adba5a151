//! What comes of a row.
ghost use Rattle.std.specs.Prelude.{◌≡◌, ◌↔◌, IsNone, MatchResult, IfOk, Err, if◌then◌else◌};

use crate::fault::Fault;
use std::alloc::AllocError;

/// What comes of a row.
#[derive(Clone, Copy, Debug, PartialEq, Eq)]
pub enum Outcome {
    /// What the row says is so.
    Holds,
    /// It isn't.
    Differs,
    /// The row says nothing that the subject can read.
    Unreadable,
    /// There was no memory to tell.
    Memory,
}

impl Outcome {
    /// The outcome of a test.
    pub fn of(holds: bool) -> Outcome
        ensures { result ≡ (if holds then Outcome.Holds else Outcome.Differs) }
    {
        if holds {
            Outcome::Holds
        } else {
            Outcome::Differs
        }
    }

    /// The outcome of a test that may want memory.
    pub fn of_answer(answer: Result<bool, AllocError>) -> Outcome
        ensures { MatchResult answer (λ holds. result ≡ (if holds then Outcome.Holds else Outcome.Differs)) (λ _. result ≡ Outcome.Memory) }
    {
        match answer {
            Ok(holds) => Outcome::of(holds),
            Err(_) => Outcome::Memory,
        }
    }

    /// The outcome of a test that may find the row unreadable, too.
    pub fn of_test(answer: Result<bool, Fault>) -> Outcome
        ensures holds { IfOk answer (λ holds. result ≡ (if holds then Outcome.Holds else Outcome.Differs)) }
        ensures unread { answer ≡ Err Fault.Unreadable → result ≡ Outcome.Unreadable }
        ensures memory { answer ≡ Err Fault.Memory → result ≡ Outcome.Memory }
    {
        match answer {
            Ok(holds) => Outcome::of(holds),
            Err(Fault::Unreadable) => Outcome::Unreadable,
            Err(Fault::Memory) => Outcome::Memory,
        }
    }

    /// What is printed of the row, unless it holds.
    pub(crate) fn complaint(self) -> Option<&'static str>
        ensures { IsNone result ↔ (self ≡ Outcome.Holds) }
    {
        match self {
            Outcome::Holds => None,
            Outcome::Differs => Some("differs"),
            Outcome::Unreadable => Some("can't be read"),
            Outcome::Memory => Some("out of memory"),
        }
    }
}

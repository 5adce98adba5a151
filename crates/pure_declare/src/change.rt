//! What a command that declares does.
ghost use Rattle.std.specs.Prelude.{◌≡◌, [], IfOk};
ghost use Rattle.pure_declare.specs.Notes as spec;

use pure_text::Text;
use pure_theory::Theory;
use std::alloc::{AllocError, Global};
use std::marker::Model;

/// What a command that declares does: what is said behind the head of its row, and the next theory.
#[derive(Drop)]
pub(crate) struct Change {
    tail: Text,
    next: Theory,
}

impl Model for Change {
    ghost use Rattle.pure_declare.specs.Codes.{coded_change};
    ghost use Rattle.pure_declare.specs.Notes as spec;

    ghost Value = { spec.Change };

    ghost coded = { coded_change };

    ghost view = { λ c. record { tail = c.tail; next = c.next } };
}

impl Change {
    /// A change of which this is said.
    pub(crate) fn saying(tail: Text, next: Theory) -> Change
        ensures { result ≡ record { tail = tail; next = next } }
    {
        Change { tail, next }
    }

    /// A change of which nothing is said.
    pub(crate) fn quiet(alloc: Global, next: Theory) -> Change
        ensures { result ≡ record { tail = []; next = next } }
    {
        let tail = Text::from(Vec::new(alloc));
        Change { tail, next }
    }

    /// Its parts.
    pub(crate) fn into_parts(self) -> (Text, Theory)
        ensures tail { result.0 ≡ self.tail }
        ensures next { result.1 ≡ self.next }
    {
        let Change { tail, next } = self;
        (tail, next)
    }
}

//! Rows of facts: of a small theory, and of Pure.
use crate::answers::compared;
use crate::theory::{Small, small_theory};
use pure_rows::{Outcome, Row};
use pure_rules::{axiom, built, promise};
use pure_shown::label;
use pure_term::Name;
use pure_theorem::Built;
use std::alloc::Global;

/// A fact of a theory that is asked for.
#[derive(Clone, Copy)]
pub(crate) enum Fact {
    Axiom,
    Promise,
}

/// The digit that the text is.
fn digit(text: &[u8]) -> Option<u8> {
    match text {
        [digit] if digit.is_ascii_digit() => Some(*digit),
        _ => None,
    }
}

/// What comes of a row that asks for the axiom of a name.
fn of_axiom(alloc: Global, thy: &Small, row: &Row) -> Option<Outcome> {
    let name = Name(row.number(3)?);
    compared(alloc, &axiom(alloc, thy, name), row.field(4))
}

/// What comes of a row that asks for the promise of a label.
fn of_promise(alloc: Global, thy: &Small, row: &Row) -> Option<Outcome> {
    let label = label(digit(row.field(3))?);
    compared(alloc, &promise(alloc, thy, label), row.field(4))
}

/// What comes of a row that asks a theory for a fact: the propositions of its axiom and its promise, what is asked for, and the answer.
pub(crate) fn of_fact(alloc: Global, fact: Fact, row: &Row) -> Option<Outcome> {
    let thy = small_theory(alloc, row.field(1), row.field(2))?;
    match fact {
        Fact::Axiom => of_axiom(alloc, &thy, row),
        Fact::Promise => of_promise(alloc, &thy, row),
    }
}

/// The theorem of Pure with this name.
fn built_of(name: &[u8]) -> Option<Built> {
    match name {
        b"Refl" => Some(Built::Refl),
        b"Subst" => Some(Built::Subst),
        b"Ext" => Some(Built::Ext),
        b"Iff" => Some(Built::Iff),
        b"Mp" => Some(Built::Mp),
        b"Spec" => Some(Built::Spec),
        _ => None,
    }
}

/// What comes of a row that asks for a theorem of Pure: its name, and the answer.
pub(crate) fn of_built(alloc: Global, thy: &Small, row: &Row) -> Option<Outcome> {
    let which = built_of(row.field(1))?;
    compared(alloc, &built(alloc, thy, which), row.field(2))
}

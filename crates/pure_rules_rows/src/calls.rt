//! Rows of calls on terms and theorems.
use crate::answers::{Answer, compared};
use crate::theory::Small;
use pure_equal::{
    abstraction, beta, combination, equal_elim, equal_intr, eta, reflexive, symmetric, transitive,
};
use pure_rows::{Outcome, Row};
use pure_rules::{all_elim, all_intro, assume, implies_elim, implies_intro};
use pure_shown::{is_closed_under, is_variable, term, theorem};
use pure_term::{Term, typ_of};
use pure_theorem::Thm;
use std::alloc::Global;

/// A call on a term.
#[derive(Clone, Copy)]
pub(crate) enum OfTerm {
    Assume,
    Reflexive,
    Beta,
    Eta,
}

/// A call on a term and a theorem.
#[derive(Clone, Copy)]
pub(crate) enum OfBoth {
    ImpliesIntro,
    AllIntro,
    AllElim,
    Abstraction,
}

/// A call on two theorems.
#[derive(Clone, Copy)]
pub(crate) enum OfTheorems {
    ImpliesElim,
    Transitive,
    Combination,
    EqualIntr,
    EqualElim,
}

/// What a call on a term with a type answers; none where it may not be asked.
fn answer_of_typed(alloc: Global, thy: &Small, call: OfTerm, t: &Term) -> Option<Answer> {
    let Ok(_) = typ_of(alloc, t) else {
        return None;
    };
    match call {
        OfTerm::Beta => Some(beta(alloc, thy, t)),
        OfTerm::Eta => Some(eta(alloc, thy, t)),
        _ => Some(reflexive(alloc, thy, t)),
    }
}

/// What a call on a term answers; none where it may not be asked.
fn answer_of_term(alloc: Global, thy: &Small, call: OfTerm, t: &Term) -> Option<Answer> {
    match call {
        OfTerm::Assume => Some(assume(alloc, thy, t)),
        _ => answer_of_typed(alloc, thy, call, t),
    }
}

/// What comes of a row of a term and the answer.
pub(crate) fn of_term(alloc: Global, thy: &Small, call: OfTerm, row: &Row) -> Option<Outcome> {
    let t = term(alloc, row.field(1))?;
    let found = answer_of_term(alloc, thy, call, &t)?;
    compared(alloc, &found, row.field(2))
}

/// What a call on a variable and a theorem answers; none where it may not be asked.
fn answer_of_variable(
    alloc: Global,
    thy: &Small,
    call: OfBoth,
    x: &Term,
    th: &Thm,
) -> Option<Answer> {
    if !is_variable(x) || !is_closed_under(&th.prop, 0) {
        return None;
    }
    match call {
        OfBoth::AllIntro => Some(all_intro(alloc, thy, x, th)),
        _ => Some(abstraction(alloc, thy, x, th)),
    }
}

/// What a call on a term and a theorem answers; none where it may not be asked.
fn answer_of_both(alloc: Global, thy: &Small, call: OfBoth, t: &Term, th: &Thm) -> Option<Answer> {
    match call {
        OfBoth::ImpliesIntro => Some(implies_intro(alloc, thy, t, th)),
        OfBoth::AllElim => Some(all_elim(alloc, thy, t, th)),
        _ => answer_of_variable(alloc, thy, call, t, th),
    }
}

/// What comes of a row of this theorem: a term, the theorem, and the answer.
fn of_theorem(alloc: Global, thy: &Small, call: OfBoth, th: &Thm, row: &Row) -> Option<Outcome> {
    let t = term(alloc, row.field(1))?;
    let found = answer_of_both(alloc, thy, call, &t, th)?;
    compared(alloc, &found, row.field(3))
}

/// What comes of a row of a term, a theorem, and the answer.
pub(crate) fn of_both(alloc: Global, thy: &Small, call: OfBoth, row: &Row) -> Option<Outcome> {
    let th = theorem(alloc, row.field(2))?;
    of_theorem(alloc, thy, call, &th, row)
}

/// What comes of a row of a theorem and the answer of `symmetric`.
pub(crate) fn of_symmetric(alloc: Global, thy: &Small, row: &Row) -> Option<Outcome> {
    let th = theorem(alloc, row.field(1))?;
    compared(alloc, &symmetric(alloc, thy, &th), row.field(2))
}

/// What a call on two theorems answers.
fn answer_of_theorems(
    alloc: Global,
    thy: &Small,
    call: OfTheorems,
    first: &Thm,
    second: &Thm,
) -> Answer {
    match call {
        OfTheorems::ImpliesElim => implies_elim(alloc, thy, first, second),
        OfTheorems::Transitive => transitive(alloc, thy, first, second),
        OfTheorems::Combination => combination(alloc, thy, first, second),
        OfTheorems::EqualIntr => equal_intr(alloc, thy, first, second),
        OfTheorems::EqualElim => equal_elim(alloc, thy, first, second),
    }
}

/// What comes of a row of this first theorem: it, another, and the answer.
fn of_second(
    alloc: Global,
    thy: &Small,
    call: OfTheorems,
    first: &Thm,
    row: &Row,
) -> Option<Outcome> {
    let second = theorem(alloc, row.field(2))?;
    let found = answer_of_theorems(alloc, thy, call, first, &second);
    compared(alloc, &found, row.field(3))
}

/// What comes of a row of two theorems and the answer.
pub(crate) fn of_theorems(
    alloc: Global,
    thy: &Small,
    call: OfTheorems,
    row: &Row,
) -> Option<Outcome> {
    let first = theorem(alloc, row.field(1))?;
    of_second(alloc, thy, call, &first, row)
}

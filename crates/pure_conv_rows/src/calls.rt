//! Rows by their words.
use crate::answers::{Answer, compared};
use crate::constants::{Asked, replaced};
use pure_conv::{ConvFault, abs_conv, all_conv, comb_conv, then_conv, unfold};
use pure_rows::{Outcome, Row};
use pure_shown::{Classes, Theories, is_closed_under, is_variable, term, theorem};
use pure_term::{Term, typ_of};
use pure_theorem::Thm;
use std::alloc::Global;

/// A call on a term and a theorem.
#[derive(Clone, Copy)]
enum OfBoth {
    Abs,
    Unfold,
    Bottom,
}

/// A call on two theorems.
#[derive(Clone, Copy)]
enum OfTheorems {
    Then,
    Comb,
}

/// What `all_conv` answers; none where it may not be asked.
fn unchanged(alloc: Global, thy: &Classes, t: &Term) -> Option<Answer> {
    let Ok(_) = typ_of(alloc, t) else {
        return None;
    };
    Some(all_conv(alloc, thy, t))
}

/// What comes of a row of a term and the answer.
fn of_term(alloc: Global, thy: &Classes, row: &Row) -> Option<Outcome> {
    let t = term(alloc, row.field(2))?;
    let found = unchanged(alloc, thy, &t)?;
    compared(alloc, &found, row.field(3))
}

/// What `abs_conv` answers; none where it may not be asked.
fn abstracted(alloc: Global, thy: &Classes, x: &Term, th: &Thm) -> Option<Answer> {
    if !is_variable(x) || !is_closed_under(&th.prop, 0) {
        return None;
    }
    Some(abs_conv(alloc, thy, x, th))
}

/// What a call on a term with a type and a theorem answers; none where it may not be asked.
fn of_typed(alloc: Global, thy: &Classes, call: OfBoth, t: &Term, th: &Thm) -> Option<Answer> {
    let Ok(_) = typ_of(alloc, t) else {
        return None;
    };
    match call {
        OfBoth::Unfold => Some(unfold(alloc, thy, th, t)),
        _ => Some(replaced(alloc, thy, t, th, &Asked::new())),
    }
}

/// What a call on a term and a theorem answers; none where it may not be asked.
fn answer_of_both(
    alloc: Global,
    thy: &Classes,
    call: OfBoth,
    t: &Term,
    th: &Thm,
) -> Option<Answer> {
    match call {
        OfBoth::Abs => abstracted(alloc, thy, t, th),
        _ => of_typed(alloc, thy, call, t, th),
    }
}

/// What comes of a row of this theorem: a term, the theorem and the answer.
fn of_theorem(alloc: Global, thy: &Classes, call: OfBoth, th: &Thm, row: &Row) -> Option<Outcome> {
    let t = term(alloc, row.field(2))?;
    let found = answer_of_both(alloc, thy, call, &t, th)?;
    compared(alloc, &found, row.field(4))
}

/// What comes of a row of a term, a theorem and the answer.
fn of_both(alloc: Global, thy: &Classes, call: OfBoth, row: &Row) -> Option<Outcome> {
    let th = theorem(alloc, row.field(3))?;
    of_theorem(alloc, thy, call, &th, row)
}

/// Whether `bottom` asks so of the constants of a term, if the theorem says what they are equal to; none where it may not be asked.
fn asks(alloc: Global, thy: &Classes, t: &Term, th: &Thm, numbers: u32) -> Option<Outcome> {
    let Ok(_) = typ_of(alloc, t) else {
        return None;
    };
    let asked = Asked::new();
    match replaced(alloc, thy, t, th, &asked) {
        Err(ConvFault::Memory) => Some(Outcome::Memory),
        _ => Some(Outcome::of(asked.numbers() == u64::from(numbers))),
    }
}

/// What comes of a row of a term, a theorem, and the numbers of the constants that are asked of.
fn of_asked(alloc: Global, thy: &Classes, row: &Row) -> Option<Outcome> {
    let numbers = row.number(4)?;
    let th = theorem(alloc, row.field(3))?;
    let t = term(alloc, row.field(2))?;
    asks(alloc, thy, &t, &th, numbers)
}

/// What a call on two theorems answers.
fn answer_of_theorems(
    alloc: Global,
    thy: &Classes,
    call: OfTheorems,
    first: &Thm,
    second: &Thm,
) -> Answer {
    match call {
        OfTheorems::Then => then_conv(alloc, thy, first, second),
        OfTheorems::Comb => comb_conv(alloc, thy, first, second),
    }
}

/// What comes of a row of two theorems and the answer.
fn of_theorems(alloc: Global, thy: &Classes, call: OfTheorems, row: &Row) -> Option<Outcome> {
    let first = theorem(alloc, row.field(2))?;
    let second = theorem(alloc, row.field(3))?;
    let found = answer_of_theorems(alloc, thy, call, &first, &second);
    compared(alloc, &found, row.field(4))
}

/// What comes of the row, whose second field names the theory; none where it can't be read, or asks what may not be asked.
pub(crate) fn outcome_of(alloc: Global, theories: &Theories, row: &Row) -> Option<Outcome> {
    let thy = theories.named(row.field(1))?;
    match (row.field(0), row.len()) {
        (b"all_conv", 4) => of_term(alloc, thy, row),
        (b"then_conv", 5) => of_theorems(alloc, thy, OfTheorems::Then, row),
        (b"comb_conv", 5) => of_theorems(alloc, thy, OfTheorems::Comb, row),
        (b"abs_conv", 5) => of_both(alloc, thy, OfBoth::Abs, row),
        (b"unfold", 5) => of_both(alloc, thy, OfBoth::Unfold, row),
        (b"bottom", 5) => of_both(alloc, thy, OfBoth::Bottom, row),
        (b"asks", 5) => of_asked(alloc, thy, row),
        _ => None,
    }
}

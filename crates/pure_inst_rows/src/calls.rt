//! Rows by their words.
use crate::answers::{Answer, compared};
use crate::names::{term_names, typ_names};
use crate::raised::is_theorem_raisable;
use pure_inst::{generalise, incr_indexes, instantiate};
use pure_notation::Parts;
use pure_rows::{Outcome, Row};
use pure_shown::{Classes, Theories, parts, term_map, theorem, typ_map};
use pure_theorem::Thm;
use std::alloc::Global;

/// What `instantiate` answers; none where the parts make no maps.
fn instance(alloc: Global, thy: &Classes, parts: &Parts, th: &Thm) -> Option<Answer> {
    let typs = typ_map(alloc, &parts.typs)?;
    let terms = term_map(alloc, &parts.terms)?;
    Some(instantiate(alloc, thy, &typs, &terms, th))
}

/// What comes of a row of maps, a theorem and the answer.
fn of_instance(alloc: Global, thy: &Classes, row: &Row) -> Option<Outcome> {
    let parts = parts(alloc, row.field(2))?;
    let th = theorem(alloc, row.field(3))?;
    let found = instance(alloc, thy, &parts, &th)?;
    compared(alloc, &found, row.field(4))
}

/// What `generalise` answers; none where the parts aren't fixed variables.
fn schematic(alloc: Global, thy: &Classes, parts: &Parts, index: u32, th: &Thm) -> Option<Answer> {
    let tfrees = typ_names(alloc, &parts.typs)?;
    let frees = term_names(alloc, &parts.terms)?;
    Some(generalise(alloc, thy, &tfrees, &frees, index, th))
}

/// What comes of a row of fixed variables, an index, a theorem and the answer.
fn of_schematic(alloc: Global, thy: &Classes, row: &Row) -> Option<Outcome> {
    let index = row.number(3)?;
    let parts = parts(alloc, row.field(2))?;
    let th = theorem(alloc, row.field(4))?;
    let found = schematic(alloc, thy, &parts, index, &th)?;
    compared(alloc, &found, row.field(5))
}

/// What `incr_indexes` answers; none where it may not be asked.
fn raised(alloc: Global, thy: &Classes, by: u32, th: &Thm) -> Option<Answer> {
    if is_theorem_raisable(th, by) {
        Some(incr_indexes(alloc, thy, by, th))
    } else {
        None
    }
}

/// What comes of a row of a number, a theorem and the answer.
fn of_raised(alloc: Global, thy: &Classes, row: &Row) -> Option<Outcome> {
    let by = row.number(2)?;
    let th = theorem(alloc, row.field(3))?;
    let found = raised(alloc, thy, by, &th)?;
    compared(alloc, &found, row.field(4))
}

/// What comes of the row, whose second field names the theory; none where it can't be read, or asks what may not be asked.
pub(crate) fn outcome_of(alloc: Global, theories: &Theories, row: &Row) -> Option<Outcome> {
    let thy = theories.named(row.field(1))?;
    match (row.field(0), row.len()) {
        (b"instantiate", 5) => of_instance(alloc, thy, row),
        (b"generalise", 6) => of_schematic(alloc, thy, row),
        (b"incr_indexes", 5) => of_raised(alloc, thy, row),
        _ => None,
    }
}

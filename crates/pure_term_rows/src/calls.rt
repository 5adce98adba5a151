//! The words of rows, and the calls that make terms.
use crate::asked::{can_lift, can_put, is_variable};
use crate::maps::{term_map, typ_map};
use crate::measures::{are_measures, has_typ, has_typ_fault, is_occurrence};
use crate::names::have_base;
use crate::read::{number, term};
use pure_rows::{Fault, Outcome, Row, Subject};
use pure_term::{Grow, Term, abstract_over, inst_term, inst_typ, lift, size, subst_bound};
use std::alloc::Global;
use std::rt::Files;

/// The calls on terms and names.
pub(crate) struct Calls;

impl Subject for Calls {
    fn outcome<R: Files + Print + AllocGlobal>(
        &self,
        _rt: &R,
        alloc: Global,
        row: &Row,
    ) -> Outcome {
        Outcome::of_test(holds(alloc, row))
    }
}

/// Whether what the row says is so.
fn holds(alloc: Global, row: &Row) -> Result<bool, Fault> {
    let (first, second, third) = (row.field(1), row.field(2), row.field(3));
    match (row.field(0), row.len()) {
        (b"type", 3) => has_typ(alloc, first, second),
        (b"untyped", 3) => has_typ_fault(alloc, first, number(second)?),
        (b"lift", 5) => is_lifted(alloc, number(first)?, number(second)?, third, row.field(4)),
        (b"put", 4) => is_put(alloc, first, second, third),
        (b"abstract", 4) => is_abstracted(alloc, first, second, third),
        (b"replace", 4) => is_replaced(alloc, first, second, third),
        (b"retype", 4) => is_retyped(alloc, first, second, third),
        (b"measure", 4) => are_measures(alloc, first, number(second)?, number(third)?),
        (b"occurs", 4) => is_occurrence(alloc, first, second, third),
        (b"base", 4) => have_base(alloc, first, second, third),
        _ => Err(Fault::Unreadable),
    }
}

/// Whether the answer is `Big`.
fn is_big(found: &Result<Term, Grow>) -> Result<bool, Fault> {
    match found {
        Ok(_) => Ok(false),
        Err(Grow::Big) => Ok(true),
        Err(Grow::Memory) => Err(Fault::Memory),
    }
}

/// Whether the answer is a term of this size.
fn is_of_size(found: &Result<Term, Grow>, nodes: u32) -> Result<bool, Fault> {
    match found {
        Ok(t) => Ok(size(t) == nodes),
        Err(Grow::Big) => Ok(false),
        Err(Grow::Memory) => Err(Fault::Memory),
    }
}

/// Whether the answer is this term.
fn is_term(found: &Result<Term, Grow>, wanted: &Term) -> Result<bool, Fault> {
    match found {
        Ok(t) => Ok(t == wanted),
        Err(Grow::Big) => Ok(false),
        Err(Grow::Memory) => Err(Fault::Memory),
    }
}

/// Whether the answer is what the field wants: `big`, `size N` or a term.
fn is_wanted(alloc: Global, found: &Result<Term, Grow>, wanted: &[u8]) -> Result<bool, Fault> {
    if wanted == b"big".as_slice() {
        return is_big(found);
    }
    match wanted.strip_prefix(b"size ") {
        Some(digits) => is_of_size(found, number(digits)?),
        None => is_term(found, &term(alloc, wanted)?),
    }
}

/// Whether `lift`, where it may be asked, answers so.
fn is_lifted(alloc: Global, by: u32, from: u32, t: &[u8], wanted: &[u8]) -> Result<bool, Fault> {
    let t = term(alloc, t)?;
    if !can_lift(&t, by, from) {
        return Err(Fault::Unreadable);
    }
    is_wanted(alloc, &lift(alloc, &t, by, from), wanted)
}

/// Whether `subst_bound`, where it may be asked, answers so.
fn is_put(alloc: Global, body: &[u8], argument: &[u8], wanted: &[u8]) -> Result<bool, Fault> {
    let body = term(alloc, body)?;
    let argument = term(alloc, argument)?;
    if !can_put(0, &argument, &body) {
        return Err(Fault::Unreadable);
    }
    is_wanted(alloc, &subst_bound(alloc, &body, &argument), wanted)
}

/// Whether `abstract_over`, where it may be asked, answers so.
fn is_abstracted(alloc: Global, t: &[u8], variable: &[u8], wanted: &[u8]) -> Result<bool, Fault> {
    let t = term(alloc, t)?;
    let variable = term(alloc, variable)?;
    if !is_variable(&variable) || !can_lift(&t, 1, 0) {
        return Err(Fault::Unreadable);
    }
    is_wanted(alloc, &abstract_over(alloc, &t, &variable), wanted)
}

/// Whether `inst_term` answers so.
fn is_replaced(alloc: Global, t: &[u8], map: &[u8], wanted: &[u8]) -> Result<bool, Fault> {
    let t = term(alloc, t)?;
    let map = term_map(alloc, map)?;
    is_wanted(alloc, &inst_term(alloc, &t, &map), wanted)
}

/// Whether `inst_typ` answers so.
fn is_retyped(alloc: Global, t: &[u8], map: &[u8], wanted: &[u8]) -> Result<bool, Fault> {
    let t = term(alloc, t)?;
    let map = typ_map(alloc, map)?;
    is_wanted(alloc, &inst_typ(alloc, &t, &map), wanted)
}

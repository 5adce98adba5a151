//! Definitions of constants.
use crate::declarations::{declared, is_answered};
use crate::kept::{Kept, last};
use crate::notation::{answer_of, given, name_of, number};
use crate::stop::Stop;
use pure_notation::{NotationFault, read_term};
use pure_rows::{Outcome, Row};
use pure_term::{Name, Term};
use pure_theory::{CertFault, Theory};
use std::alloc::Global;

/// The term of the notation.
pub(crate) fn term_of(alloc: Global, text: &[u8]) -> Result<Term, Stop> {
    match read_term(alloc, text) {
        Ok(term) => Ok(term),
        Err(NotationFault::Memory) => Err(Stop::Memory),
        Err(_) => Err(Stop::Unreadable),
    }
}

/// The theory with the definition; the body has to be certified.
pub(crate) fn define(
    theory: &Theory,
    constant: Name,
    fact: Name,
    body: &Term,
) -> Result<Theory, Stop> {
    match theory.certify(body) {
        Ok(typ) => theory
            .declare_definition(constant, fact, &typ, body)
            .map_err(Stop::of),
        Err(CertFault::Memory) => Err(Stop::Memory),
        Err(_) => Err(Stop::Unreadable),
    }
}

/// The theory with the definition of the written body.
pub(crate) fn defined(
    alloc: Global,
    theory: &Theory,
    constant: Name,
    fact: Name,
    body: &[u8],
) -> Result<Theory, Stop> {
    let body = term_of(alloc, body)?;
    define(theory, constant, fact, &body)
}

/// Whether the theory has the constant and an axiom of the other name.
fn has_both(theory: &Theory, constant: Name, fact: Name) -> bool {
    theory.const_typ(constant).is_some() && theory.axiom_prop(fact).is_some()
}

/// `define`: declarations, how many they are, a constant, its axiom, its body, and the answer.
pub(crate) fn define_row(alloc: Global, kept: &mut Kept, row: &Row) -> Result<Outcome, Stop> {
    let count = number(row, 2)?;
    let constant = name_of(row.field(3))?;
    let fact = name_of(row.field(4))?;
    let wanted = answer_of(row.field(6))?;
    let stages = &mut kept.stages;
    declared(alloc, stages, given(row, 1))?;
    let made = defined(alloc, last(stages)?, constant, fact, row.field(5));
    let counts = (count, count.saturating_add(2));
    let answered = is_answered(alloc, stages, made, wanted, counts)?;
    let there = wanted.is_some() || has_both(last(stages)?, constant, fact);
    Ok(Outcome::of(answered && there))
}

/// The letter of a refusal to certify, and the number of its name, or its place.
fn letter_of(fault: CertFault) -> (u8, u32) {
    match fault {
        CertFault::UnknownType { name } => (b'T', name.0),
        CertFault::WrongCount { name } => (b'W', name.0),
        CertFault::UnknownClass { name } => (b'C', name.0),
        CertFault::UnknownConst { name } => (b'K', name.0),
        CertFault::NotInstance { name } => (b'I', name.0),
        CertFault::SortFails { var } => (b'S', var.0),
        CertFault::NotTyped { place } => (b'P', place),
        CertFault::Memory => (b'M', 0),
    }
}

/// Whether the refusal is written by this letter and number.
fn is_written(fault: CertFault, letter: &[u8], number: u32) -> bool {
    let (own, told) = letter_of(fault);
    told == number && letter == [own].as_slice()
}

/// Whether the theory refuses to certify the term by this letter and number.
fn is_refused(theory: &Theory, t: &Term, letter: &[u8], number: u32) -> bool {
    match theory.certify(t) {
        Ok(_typ) => false,
        Err(fault) => is_written(fault, letter, number),
    }
}

/// `uncertified`: declarations, a term, and the letter and number of the refusal to certify it.
pub(crate) fn uncertified_row(alloc: Global, kept: &mut Kept, row: &Row) -> Result<Outcome, Stop> {
    let number = number(row, 4)?;
    declared(alloc, &mut kept.stages, given(row, 1))?;
    let t = term_of(alloc, row.field(2))?;
    let theory = last(&kept.stages)?;
    Ok(Outcome::of(is_refused(theory, &t, row.field(3), number)))
}

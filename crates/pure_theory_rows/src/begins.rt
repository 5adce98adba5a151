//! Theories that begin with others: what they declare, why they are refused, and when they may begin.
use crate::declarations::PURE_COUNT;
use crate::kept::{Kept, last};
use crate::notation::{fault_of, given, name, yes_or_no};
use crate::sessions::{put_parents, session, tell, told_of};
use crate::stop::Stop;
use pure_rows::{Outcome, Row};
use pure_term::Name;
use pure_theory::{Decl, Stage, Theory};
use std::alloc::Global;
use std::mem;

/// Whether the word is these two names with the mark between them.
fn is_word(word: &[u8], first: Name, mark: u8, second: Option<Name>) -> bool {
    match (word, second) {
        ([one, own], None) => name(*one) == first && *own == mark,
        ([one, own, two], Some(second)) => {
            name(*one) == first && *own == mark && name(*two) == second
        }
        _ => false,
    }
}

/// Whether the word is how the declaration is written.
fn is_written(decl: Decl, word: &[u8]) -> bool {
    match decl {
        Decl::Class { name } => is_word(word, name, b'<', None),
        Decl::Con { name } => is_word(word, name, b'/', None),
        Decl::Arity { con, class } => is_word(word, con, b':', Some(class)),
        Decl::Const { name } => is_word(word, name, b'.', None),
        Decl::Axiom { name } => is_word(word, name, b'!', None),
        Decl::Promise { name, .. } => is_word(word, name, b'?', None),
    }
}

/// Whether there is a declaration, and it is written so.
fn is_written_if_any(decl: Option<Decl>, word: &[u8]) -> bool {
    match decl {
        Some(decl) => is_written(decl, word),
        None => false,
    }
}

/// Whether the theory declares just this beside Pure, in this order.
fn is_listed(theory: &Theory, words: &[u8]) -> bool {
    let mut place = PURE_COUNT;
    if !words.is_empty() {
        for word in words.split(|byte| *byte == b' ') {
            if !is_written_if_any(theory.decl_at(place), word) {
                return false;
            }
            place = place.saturating_add(1);
        }
    }
    theory.decl_at(place).is_none()
}

/// `begins`: a session, a theory over it, and what that declares.
pub(crate) fn begins_row(alloc: Global, kept: &mut Kept, row: &Row) -> Result<Outcome, Stop> {
    session(alloc, kept, given(row, 1))?;
    let Some(told) = told_of(row.field(2)) else {
        return Err(Stop::Unreadable);
    };
    tell(alloc, kept, &told)?;
    let theory = last(&kept.stages)?;
    let is_named = theory.name() == Some(told.name);
    Ok(Outcome::of(is_named && is_listed(theory, given(row, 3))))
}

/// `refused`: a session, a theory over it, and why that is refused.
pub(crate) fn refused_row(alloc: Global, kept: &mut Kept, row: &Row) -> Result<Outcome, Stop> {
    let wanted = fault_of(row.field(3))?;
    session(alloc, kept, given(row, 1))?;
    let Some(told) = told_of(row.field(2)) else {
        return Err(Stop::Unreadable);
    };
    match tell(alloc, kept, &told) {
        Ok(()) => Ok(Outcome::Differs),
        Err(Stop::Refused(fault)) => Ok(Outcome::of(fault == wanted)),
        Err(stop) => Err(stop),
    }
}

/// `may`: a session, a theory over it, and whether it may begin.
pub(crate) fn may_row(alloc: Global, kept: &mut Kept, row: &Row) -> Result<Outcome, Stop> {
    let wanted = yes_or_no(row.field(3))?;
    session(alloc, kept, given(row, 1))?;
    let Some(told) = told_of(row.field(2)) else {
        return Err(Stop::Unreadable);
    };
    let mut parents = Vec::new(alloc);
    let put = put_parents(alloc, kept, &mut parents, told.parents);
    let may = Theory::may_begin(alloc, told.index, told.name, &parents);
    mem::forget(parents);
    put?;
    Ok(Outcome::of(may? == wanted))
}

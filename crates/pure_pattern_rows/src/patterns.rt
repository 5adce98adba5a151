//! Calls that unify patterns. What they are given and find isn't let go, since that would be proved anew.
use crate::asked::are_ready;
use crate::entries::has_entries;
use crate::notes::{outcome_of, text};
use crate::sides::pairs;
use pure_notation::NotationFault;
use pure_pattern::{PatternFault, unify_pattern};
use pure_rows::{Outcome, Row, Subject, number_of};
use pure_term::TermMap;
use pure_theorem::Pair;
use std::alloc::Global;
use std::mem;
use std::rt::Files;

/// Calls with pairs whose indexes are at most 3.
#[derive(Drop)]
pub(crate) struct Patterns;

impl Subject for Patterns {
    fn outcome<R: Files + Print + AllocGlobal>(
        &self,
        _rt: &R,
        alloc: Global,
        row: &Row,
    ) -> Outcome {
        match read_wanted(row) {
            Some(wanted) => outcome_of(holds(alloc, row.field(1), wanted)),
            None => Outcome::Unreadable,
        }
    }
}

/// What is wanted: the entries, each variable before its image; that there is a unifier, whatever it is; or why there is none.
#[derive(Clone, Copy)]
enum Wanted<'r> {
    Is(&'r [u8]),
    Some,
    None(PatternFault),
}

/// The fault of this name, with the number of a pair where it has one.
fn fault(name: &[u8], index: u32) -> Option<PatternFault> {
    match name {
        b"SchematicType" => Some(PatternFault::SchematicType { index }),
        b"NotPattern" => Some(PatternFault::NotPattern { index }),
        b"NoUnifier" => Some(PatternFault::NoUnifier),
        b"Steps" => Some(PatternFault::Steps),
        b"Big" => Some(PatternFault::Big),
        _ => None,
    }
}

/// What the row wants.
fn read_wanted(row: &Row) -> Option<Wanted<'_>> {
    match row.field(0) {
        b"unifier" if row.len() == 3 => Some(Wanted::Is(text(row.field(2)))),
        b"some" if row.len() == 2 => Some(Wanted::Some),
        b"none" if row.len() == 3 => Some(Wanted::None(fault(row.field(2), 0)?)),
        b"refused" if row.len() == 4 => {
            Some(Wanted::None(fault(row.field(2), number_of(row.field(3))?)?))
        }
        _ => None,
    }
}

/// The unifier of the pairs.
fn unifier(alloc: Global, pairs: &[Pair]) -> Result<TermMap, PatternFault> {
    if !are_ready(alloc, pairs) {
        return Err(PatternFault::Memory);
    }
    unify_pattern(alloc, pairs, 3)
}

/// Whether the answer is the one that is wanted.
fn is_wanted(
    alloc: Global,
    found: &Result<TermMap, PatternFault>,
    wanted: Wanted<'_>,
) -> Result<bool, NotationFault> {
    match (found, wanted) {
        (Ok(unifier), Wanted::Is(entries)) => has_entries(alloc, unifier, entries),
        (Ok(_), Wanted::Some) => Ok(true),
        (Err(fault), Wanted::None(other)) => Ok(*fault == other),
        _ => Ok(false),
    }
}

/// Whether the call answers what is wanted of the text's pairs.
fn holds(alloc: Global, sides: &[u8], wanted: Wanted<'_>) -> Result<bool, NotationFault> {
    let pairs = pairs(alloc, text(sides))?;
    let found = unifier(alloc, &pairs);
    let answer = is_wanted(alloc, &found, wanted);
    mem::forget(found);
    mem::forget(pairs);
    answer
}

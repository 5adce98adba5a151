//! Searches for unifiers. What they are given and find isn't let go, since that would be proved anew.
use crate::asked::are_typed;
use crate::entries::{are_entries, none, push_terms, push_typs};
use crate::notes::{outcome_of, text};
use crate::sides::{are_pairs, pairs};
use pure_notation::{NotationFault, Parts};
use pure_order::Order;
use pure_rows::{Outcome, Row, Subject};
use pure_theorem::Pair;
use pure_unify::{Unifier, UnifyFault, unify};
use std::alloc::Global;
use std::mem;
use std::rt::Files;

/// Searches under an order.
#[derive(Drop)]
pub(crate) struct Unifiers<'o> {
    pub(crate) order: &'o Order,
}

impl Subject for Unifiers<'_> {
    fn outcome<R: Files + Print + AllocGlobal>(
        &self,
        _rt: &R,
        alloc: Global,
        row: &Row,
    ) -> Outcome {
        match read_wanted(row) {
            Some(wanted) => outcome_of(holds(alloc, self.order, row.field(1), wanted)),
            None => Outcome::Unreadable,
        }
    }
}

/// What is wanted: the sides of the flex-flex pairs in turn, and the entries, each variable before its image; or that there is a unifier, whatever it is; or why there is none.
#[derive(Clone, Copy)]
enum Wanted<'r> {
    Is(&'r [u8], &'r [u8]),
    Some,
    None(UnifyFault),
}

/// The faults and their names.
const FAULTS: [(&[u8], UnifyFault); 4] = [
    (b"NoUnifier", UnifyFault::NoUnifier),
    (b"SearchBound", UnifyFault::SearchBound),
    (b"Steps", UnifyFault::Steps),
    (b"Big", UnifyFault::Big),
];

/// The fault of this name.
fn fault(name: &[u8]) -> Option<UnifyFault> {
    for (own, fault) in &FAULTS {
        if *own == name {
            return Some(*fault);
        }
    }
    None
}

/// What the row wants.
fn read_wanted(row: &Row) -> Option<Wanted<'_>> {
    match row.field(0) {
        b"unifier" if row.len() == 4 => { Some(Wanted::Is(text(row.field(2)), text(row.field(3)))) }
        b"some" if row.len() == 2 => Some(Wanted::Some),
        b"planted" if row.len() == 3 => Some(Wanted::Some),
        b"none" if row.len() == 3 => Some(Wanted::None(fault(row.field(2))?)),
        _ => None,
    }
}

/// The unifier of the pairs, whose indexes are at most 3.
fn unifier(alloc: Global, order: &Order, pairs: &[Pair]) -> Result<Unifier, UnifyFault> {
    if !are_typed(alloc, pairs) {
        return Err(UnifyFault::Memory);
    }
    unify(alloc, order, pairs, 3)
}

/// Puts the unifier's variables and images behind the others, of types and of terms.
fn push_entries(alloc: Global, found: &mut Parts, unifier: &Unifier) -> Result<(), NotationFault> {
    push_typs(alloc, found, &unifier.typs)?;
    push_terms(alloc, found, &unifier.terms)?;
    Ok(())
}

/// Whether the unifier has these entries.
fn has_entries(alloc: Global, unifier: &Unifier, entries: &[u8]) -> Result<bool, NotationFault> {
    let mut found = none(alloc);
    let answer = match push_entries(alloc, &mut found, unifier) {
        Ok(_) => are_entries(alloc, &found, entries),
        Err(fault) => Err(fault),
    };
    mem::forget(found);
    answer
}

/// Whether the unifier has these flex-flex pairs and these entries.
fn is_unifier(
    alloc: Global,
    unifier: &Unifier,
    flexflex: &[u8],
    entries: &[u8],
) -> Result<bool, NotationFault> {
    let has_pairs = are_pairs(alloc, &unifier.flexflex, flexflex)?;
    let has_entries = has_entries(alloc, unifier, entries)?;
    Ok(has_pairs && has_entries)
}

/// Whether the answer is the one that is wanted.
fn is_wanted(
    alloc: Global,
    found: &Result<Unifier, UnifyFault>,
    wanted: Wanted<'_>,
) -> Result<bool, NotationFault> {
    match (found, wanted) {
        (Ok(unifier), Wanted::Is(flexflex, entries)) => {
            is_unifier(alloc, unifier, flexflex, entries)
        }
        (Ok(_), Wanted::Some) => Ok(true),
        (Err(fault), Wanted::None(other)) => Ok(*fault == other),
        _ => Ok(false),
    }
}

/// Whether the search for a unifier of the text's pairs answers what is wanted.
fn holds(
    alloc: Global,
    order: &Order,
    sides: &[u8],
    wanted: Wanted<'_>,
) -> Result<bool, NotationFault> {
    let pairs = pairs(alloc, text(sides))?;
    let found = unifier(alloc, order, &pairs);
    let answer = is_wanted(alloc, &found, wanted);
    mem::forget(found);
    mem::forget(pairs);
    answer
}

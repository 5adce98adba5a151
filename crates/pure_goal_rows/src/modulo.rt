//! Rows of terms that are equal modulo pairs, or not.
use crate::sides::pairs;
use pure_pairs::{PairDiffers, equal_modulo};
use pure_rows::{Outcome, Row, Subject};
use pure_shown::term;
use pure_term::Term;
use pure_theorem::Pair;
use std::alloc::Global;
use std::rt::Files;

/// Equality modulo pairs.
#[derive(Drop)]
pub(crate) struct Modulo;

impl Subject for Modulo {
    fn outcome<R: Files + Print + AllocGlobal>(
        &self,
        _rt: &R,
        alloc: Global,
        row: &Row,
    ) -> Outcome {
        match holds(alloc, row) {
            Some(holds) => Outcome::of(holds),
            None => Outcome::Unreadable,
        }
    }
}

/// Whether the terms differ at a place.
#[derive(Clone, Copy)]
enum Wanted {
    Equal,
    At(u32),
}

/// What the row wants.
fn read_wanted(row: &Row) -> Option<Wanted> {
    match row.field(0) {
        b"equal" if row.len() == 4 => Some(Wanted::Equal),
        b"differs" if row.len() == 5 => Some(Wanted::At(row.number(4)?)),
        _ => None,
    }
}

/// Whether the answer is this.
fn is_wanted(found: &Result<(), PairDiffers>, wanted: Wanted) -> bool {
    match (found, wanted) {
        (Ok(_), Wanted::Equal) => true,
        (Err(fault), Wanted::At(place)) => fault.place == place,
        _ => false,
    }
}

/// Whether this term and the row's second differ where it is wanted.
fn holds_from(alloc: Global, pairs: &[Pair], t: &Term, row: &Row, wanted: Wanted) -> Option<bool> {
    let u = term(alloc, row.field(3))?;
    Some(is_wanted(&equal_modulo(pairs, t, &u), wanted))
}

/// Whether the row's terms differ where it is wanted, modulo these pairs.
fn holds_modulo(alloc: Global, pairs: &[Pair], row: &Row, wanted: Wanted) -> Option<bool> {
    let t = term(alloc, row.field(2))?;
    holds_from(alloc, pairs, &t, row, wanted)
}

/// Whether the row's terms differ where it is wanted.
fn holds(alloc: Global, row: &Row) -> Option<bool> {
    let wanted = read_wanted(row)?;
    let pairs = pairs(alloc, row.field(1))?;
    holds_modulo(alloc, &pairs, row, wanted)
}

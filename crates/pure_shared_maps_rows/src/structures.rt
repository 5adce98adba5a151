//! The rows of shelves, lists and maps.
use crate::grown::{list_grows, list_grows_in_two_ways, map_grows_in_two_ways, map_has_key_again};
use crate::shelves::{branches_outcome, runs_outcome};
use pure_rows::{Outcome, Row, Subject};
use std::alloc::Global;
use std::rt::Files;

/// Shelves, lists and maps.
pub(crate) struct Structures;

impl Subject for Structures {
    fn outcome<R: Files + Print + AllocGlobal>(
        &self,
        _rt: &R,
        alloc: Global,
        row: &Row,
    ) -> Outcome {
        match (row.field(0), row.len()) {
            (b"runs", 3) => runs_outcome(alloc, row.field(1), row.field(2)),
            (b"branches", 5) => branches_outcome(alloc, row),
            (b"list", 2) => counted_outcome(alloc, Grows::List, row.number(1)),
            (b"branching-list", 2) => counted_outcome(alloc, Grows::Lists, row.number(1)),
            (b"branching-map", 2) => counted_outcome(alloc, Grows::Maps, row.number(1)),
            (b"again", 3) => again_outcome(alloc, row.number(1), row.number(2)),
            _ => Outcome::Unreadable,
        }
    }
}

/// What grows to a count: a list, one that goes on in two ways, or a map that does.
#[derive(Clone, Copy)]
enum Grows {
    List,
    Lists,
    Maps,
}

/// What comes of a row of a count.
fn counted_outcome(alloc: Global, grows: Grows, count: Option<u32>) -> Outcome {
    let Some(count) = count else {
        return Outcome::Unreadable;
    };
    Outcome::of_answer(match grows {
        Grows::List => list_grows(alloc, count),
        Grows::Lists => list_grows_in_two_ways(alloc, count),
        Grows::Maps => map_grows_in_two_ways(alloc, count),
    })
}

/// What comes of a row of a key that comes again.
fn again_outcome(alloc: Global, before: Option<u32>, behind: Option<u32>) -> Outcome {
    match (before, behind) {
        (Some(before), Some(behind)) => {
            Outcome::of_answer(map_has_key_again(alloc, before, behind))
        }
        _ => Outcome::Unreadable,
    }
}

//! The rows of what is printed.
use crate::forms::{Way, term_outcome, typ_outcome};
use crate::table::{line_outcome, table_outcome};
use pure_rows::{Outcome, Row, Subject};
use std::alloc::Global;
use std::rt::Files;

/// The printing of types, terms, lines and tables.
pub(crate) struct Prints;

impl Subject for Prints {
    fn outcome<R: Files + Print + AllocGlobal>(
        &self,
        _rt: &R,
        alloc: Global,
        row: &Row,
    ) -> Outcome {
        match (row.field(0), row.len()) {
            (b"type", 3) => typ_outcome(alloc, Way::Both, row.field(1), row.field(2)),
            (b"term", 3) => term_outcome(alloc, Way::Both, row.field(1), row.field(2)),
            (b"one-way-type", 3) => typ_outcome(alloc, Way::One, row.field(1), row.field(2)),
            (b"one-way-term", 3) => term_outcome(alloc, Way::One, row.field(1), row.field(2)),
            (b"line", 5) => line_outcome(alloc, row),
            (b"table", _) => table_outcome(alloc, row),
            _ => Outcome::Unreadable,
        }
    }
}

//! The words of rows.
use crate::beta::is_beta_normal;
use crate::eta::{has_long_size, is_eta_normal, is_long};
use pure_rows::{Fault, Outcome, Row, Subject};
use std::alloc::Global;
use std::rt::Files;

/// The calls that make normal forms and long forms.
pub(crate) struct Forms;

impl Subject for Forms {
    fn outcome<R: Files + Print + AllocGlobal>(
        &self,
        _rt: &R,
        alloc: Global,
        row: &Row,
    ) -> Outcome {
        Outcome::of_test(holds(alloc, row))
    }
}

/// Whether what the row says is so.
fn holds(alloc: Global, row: &Row) -> Result<bool, Fault> {
    let (term, wanted) = (row.field(1), row.field(2));
    match (row.field(0), row.len()) {
        (b"beta", 3) => is_beta_normal(alloc, term, wanted),
        (b"eta", 3) => is_eta_normal(alloc, term, wanted),
        (b"long", 3) => is_long(alloc, term, wanted),
        (b"long_size", 4) => has_long_size(alloc, term, row.number(2), row.number(3)),
        _ => Err(Fault::Unreadable),
    }
}

//! The texts of the faults of loading.
use pure_graph::LoadFault;
use pure_rows::{Outcome, Row};
use std::alloc::{AllocError, Global};

/// Whether the fault's text is this one.
fn is_said(alloc: Global, fault: &LoadFault, wanted: &[u8]) -> Result<bool, AllocError> {
    let said = format!(in alloc; "{fault}")?;
    Ok(said.as_bytes() == wanted)
}

/// What comes of a row that gives a fault's text.
pub(crate) fn fault_outcome(alloc: Global, row: &Row) -> Outcome {
    match (row.field(1), row.len()) {
        (b"read", 3) => Outcome::of_answer(is_said(alloc, &LoadFault::ReadFault, row.field(2))),
        (b"memory", 3) => Outcome::of_answer(is_said(alloc, &LoadFault::Memory, row.field(2))),
        _ => Outcome::Unreadable,
    }
}

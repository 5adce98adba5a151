//! Files of rows, some of which declare what the calls of the rows behind them are asked under.
use crate::certified::{has_fault, has_typ};
use crate::declared::order;
use crate::listed::Listed;
use crate::read::{number, typs};
use crate::unified::{is_unified, is_unified_from};
use pure_rows::{Fault, Outcome, Row, Tally, read_file};
use std::alloc::Global;
use std::mem;
use std::process::ExitCode;
use std::rt::Files;

/// The numbers in the text, with a blank between two.
fn counts(alloc: Global, text: &[u8]) -> Result<Vec<u32>, Fault> {
    let mut counts = Vec::new(alloc);
    for digits in text.split(|byte| *byte == b' ') {
        counts.push(number(digits)?)?;
    }
    Ok(counts)
}

/// Whether the row declares something: it is put into the tables in the place of what was declared there before.
fn declares(alloc: Global, tables: &mut Listed, row: &Row) -> Result<bool, Fault> {
    match (row.field(0), row.len()) {
        (b"order", 2) => tables.put_order(order(alloc, row.field(1))?),
        (b"constructors", 2) => tables.cons = counts(alloc, row.field(1))?,
        (b"constants", 2) => tables.consts = typs(alloc, row.field(1))?,
        _ => return Ok(false),
    }
    Ok(true)
}

/// Whether what the row says of a call is so.
fn is_answered(alloc: Global, tables: &Listed, row: &Row) -> Result<bool, Fault> {
    let (first, second, third) = (row.field(1), row.field(2), row.field(3));
    let order = &tables.order;
    match (row.field(0), row.len()) {
        (b"certify", 3) => has_typ(alloc, tables, first, second),
        (b"fault", 4) => has_fault(alloc, tables, first, second, number(third)?),
        (b"unify", 3) => is_unified(alloc, order, first, second),
        (b"unify_from", 4) => is_unified_from(alloc, order, number(first)?, second, third, None),
        (b"unify_from", 5) => {
            let next = number(row.field(4))?;
            is_unified_from(alloc, order, number(first)?, second, third, Some(next))
        }
        _ => Err(Fault::Unreadable),
    }
}

/// Whether the row declares something, or what it says is so.
fn holds(alloc: Global, tables: &mut Listed, row: &Row) -> Result<bool, Fault> {
    if declares(alloc, tables, row)? {
        return Ok(true);
    }
    is_answered(alloc, tables, row)
}

/// Holds each line's row against the calls.
fn hold_lines<R: Files + Print + AllocGlobal>(rt: &R, tally: &mut Tally<'_>, text: &[u8]) {
    let alloc = rt.alloc();
    let mut tables = Listed::empty(alloc);
    for line in text.split(|byte| *byte == b'\n') {
        if let Some(row) = tally.next_row(rt, alloc, line) {
            tally.add(rt, Outcome::of_test(holds(alloc, &mut tables, &row)));
        }
    }
    mem::forget(tables);
}

/// Holds each row of the file against the calls.
pub(crate) fn run_declared<R: Files + Print + AllocGlobal>(rt: &R, file: &str) -> ExitCode {
    let Some(text) = read_file(rt, file) else {
        return ExitCode::FAILURE;
    };
    let mut tally = Tally::begin(file);
    hold_lines(rt, &mut tally, &text);
    tally.end(rt)
}

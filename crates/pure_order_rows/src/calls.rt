//! The words of rows, and the calls that they speak of.
use crate::answers::{answer, refusal};
use crate::counts::{has_arities, is_chain, is_flat, is_united};
use crate::declarations::{declare, declare_all, kept, order, written};
use pure_order::{Order, OrderFault};
use pure_rows::{Fault, Outcome, Row, Subject};
use std::alloc::Global;
use std::mem;
use std::rt::Files;

/// The calls on orders.
pub(crate) struct Calls;

impl Subject for Calls {
    fn outcome<R: Files + Print + AllocGlobal>(
        &self,
        _rt: &R,
        alloc: Global,
        row: &Row,
    ) -> Outcome {
        Outcome::of_test(tried(alloc, row))
    }
}

/// Whether the row holds.
fn tried(alloc: Global, row: &Row) -> Result<bool, Fault> {
    let (first, second, third) = (row.field(1), row.field(2), row.field(3));
    match (row.field(0), row.len()) {
        (b"declare", 4) => is_refusal(alloc, first, second, third),
        (b"ask", 4) => is_answer(alloc, first, second, third),
        (b"merge", 5) => is_merge(alloc, row),
        (b"copy", 6) => is_copy(alloc, row),
        (b"chain", 2) => is_chain(alloc, number(row)?),
        (b"flat", 2) => is_flat(alloc, number(row)?),
        (b"union", 2) => is_united(alloc, number(row)?),
        (b"arities", 4) => has_arities(alloc, number(row)?, second, third),
        _ => Err(Fault::Unreadable),
    }
}

/// The number in the first field behind the word.
fn number(row: &Row) -> Result<u32, Fault> {
    match row.number(1) {
        Some(number) => Ok(number),
        None => Err(Fault::Unreadable),
    }
}

/// Whether the order gives this answer.
pub(crate) fn is_answered(
    alloc: Global,
    order: &Order,
    asked: &[u8],
    wanted: &[u8],
) -> Result<bool, Fault> {
    let found = answer(alloc, order, written(asked))?;
    Ok(found.as_slice() == written(wanted))
}

/// Whether the order of the declarations gives this answer.
fn is_answer(alloc: Global, text: &[u8], asked: &[u8], wanted: &[u8]) -> Result<bool, Fault> {
    let order = order(alloc, text)?;
    let answered = is_answered(alloc, &order, asked, wanted);
    mem::forget(order);
    answered
}

/// Whether the fault is this refusal.
fn is_fault(alloc: Global, fault: OrderFault, wanted: &[u8]) -> Result<bool, Fault> {
    let found = refusal(alloc, fault)?;
    Ok(found.as_slice() == written(wanted))
}

/// Whether the order refuses the declaration so.
fn is_refused(alloc: Global, order: &mut Order, more: &[u8], wanted: &[u8]) -> Result<bool, Fault> {
    match declare(alloc, order, written(more))? {
        Some(fault) => is_fault(alloc, fault, wanted),
        None => Ok(written(wanted).is_empty()),
    }
}

/// Whether the order of the declarations refuses one more so.
fn is_refusal(alloc: Global, text: &[u8], more: &[u8], wanted: &[u8]) -> Result<bool, Fault> {
    let mut order = order(alloc, text)?;
    let refused = is_refused(alloc, &mut order, more, wanted);
    mem::forget(order);
    refused
}

/// Whether the union of both gives this answer, or the merge is refused so; `apart` where they don't agree on a class.
fn is_merged(
    alloc: Global,
    first: &Order,
    second: &Order,
    asked: &[u8],
    wanted: &[u8],
) -> Result<bool, Fault> {
    if !first.agrees(second) {
        return Ok(wanted == b"apart".as_slice());
    }
    match first.merge(alloc, second) {
        Ok(union) => {
            let answered = is_answered(alloc, &union, asked, wanted);
            mem::forget(union);
            answered
        }
        Err(fault) => is_fault(alloc, fault, wanted),
    }
}

/// The same of an order and the declarations of another.
fn is_merged_with(
    alloc: Global,
    first: &Order,
    second: &[u8],
    asked: &[u8],
    wanted: &[u8],
) -> Result<bool, Fault> {
    let second = order(alloc, second)?;
    let merged = is_merged(alloc, first, &second, asked, wanted);
    mem::forget(second);
    merged
}

/// The same of the declarations of both.
fn is_merge(alloc: Global, row: &Row) -> Result<bool, Fault> {
    let first = order(alloc, row.field(1))?;
    let merged = is_merged_with(alloc, &first, row.field(2), row.field(3), row.field(4));
    mem::forget(first);
    merged
}

/// A copy with the declarations more.
fn grown(alloc: Global, order: &Order, more: &[u8]) -> Result<Order, Fault> {
    let mut copy = order.copy(alloc)?;
    let made = declare_all(alloc, &mut copy, more);
    kept(copy, made)
}

/// Whether a copy of the order with a declaration more gives this answer.
fn is_grown(
    alloc: Global,
    order: &Order,
    more: &[u8],
    asked: &[u8],
    wanted: &[u8],
) -> Result<bool, Fault> {
    let copy = grown(alloc, order, more)?;
    let answered = is_answered(alloc, &copy, asked, wanted);
    mem::forget(copy);
    answered
}

/// Whether the copy and then the order give their answers.
fn are_apart(alloc: Global, order: &Order, row: &Row) -> Result<bool, Fault> {
    let asked = row.field(3);
    let copied = is_grown(alloc, order, row.field(2), asked, row.field(5))?;
    let kept = is_answered(alloc, order, asked, row.field(4))?;
    Ok(copied && kept)
}

/// Whether the order of the declarations and a copy of it with one more give their answers.
fn is_copy(alloc: Global, row: &Row) -> Result<bool, Fault> {
    let order = order(alloc, row.field(1))?;
    let apart = are_apart(alloc, &order, row);
    mem::forget(order);
    apart
}

//! Unifiers of terms, and what the nodes of their search come to, held against rows: some were written by hand, others have a planted solution.
#![tactic(auto)]

mod asked;
mod entries;
mod notes;
mod sides;
mod unifiers;
mod visits;

use crate::unifiers::Unifiers;
use crate::visits::Visits;
use pure_order::{Order, OrderFault};
use pure_rows::run_rows;
use pure_typ::Name;
use std::alloc::Global;
use std::mem;
use std::process::ExitCode;
use std::rt::Files;

/// Adds the classes A.c and A.d.
fn add_classes(alloc: Global, order: &mut Order) -> Result<(), OrderFault> {
    order.add_class(alloc, Name(8), &[])?;
    order.add_class(alloc, Name(9), &[])
}

/// Holds the rows of the files against searches under the order.
fn run_under<R: Files + Print + AllocGlobal>(rt: &R, order: &Order) -> ExitCode {
    let unifiers = run_rows(rt, "unifiers.rows", &Unifiers { order });
    let planted = run_rows(rt, "planted.rows", &Unifiers { order });
    let visits = run_rows(rt, "visits.rows", &Visits { order });
    if unifiers != ExitCode::SUCCESS {
        return unifiers;
    }
    if planted != ExitCode::SUCCESS {
        return planted;
    }
    visits
}

fn main(rt: HostRuntime) -> ExitCode {
    let mut order = Order::empty(rt.alloc());
    let status = match add_classes(rt.alloc(), &mut order) {
        Ok(_) => run_under(&rt, &order),
        Err(_) => ExitCode::FAILURE,
    };
    // It isn't let go, since that would be proved anew.
    mem::forget(order);
    status
}

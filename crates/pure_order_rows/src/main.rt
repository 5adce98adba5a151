//! Orders of classes and arities, held against rows that were written by hand from the rules.
#![tactic(auto)]

mod answers;
mod calls;
mod counts;
mod declarations;
mod sorts;
mod types;

use calls::Calls;
use pure_rows::run_rows;
use std::process::ExitCode;

fn main(rt: HostRuntime) -> ExitCode {
    run_rows(&rt, "order.rows", &Calls)
}

//! The calls on terms and names, held against rows that were written by hand from the rules.
#![tactic(auto)]

mod asked;
mod calls;
mod maps;
mod measures;
mod names;
mod read;
mod texts;

use calls::Calls;
use pure_rows::run_rows;
use std::process::ExitCode;

fn main(rt: HostRuntime) -> ExitCode {
    run_rows(&rt, "term.rows", &Calls)
}

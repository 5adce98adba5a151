//! What is printed, held against forms that were written by hand, and what is read of it.
#![tactic(auto)]

mod forms;
mod own;
mod prints;
mod table;

use prints::Prints;
use pure_rows::run_rows;
use std::process::ExitCode;

fn main(rt: HostRuntime) -> ExitCode {
    run_rows(&rt, "print.rows", &Prints)
}

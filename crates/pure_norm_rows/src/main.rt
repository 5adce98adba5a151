//! Normal forms and long forms, held against rows that were written by hand from the rules.
#![tactic(auto)]

mod asked;
mod beta;
mod eta;
mod forms;
mod read;

use forms::Forms;
use pure_rows::run_rows;
use std::process::ExitCode;

fn main(rt: HostRuntime) -> ExitCode {
    run_rows(&rt, "norm.rows", &Forms)
}

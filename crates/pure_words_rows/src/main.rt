//! What words on the command line ask for, held against rows that were written by hand from the rules.
#![tactic(auto)]

mod words;

use pure_rows::run_rows;
use std::process::ExitCode;
use words::Words;

fn main(rt: HostRuntime) -> ExitCode {
    run_rows(&rt, "words.rows", &Words)
}

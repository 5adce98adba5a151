//! Fates of lemmas that rest on one another, held against rows that were written by hand from the rules.
#![tactic(auto)]

mod fates;
mod lemma;
mod order;
mod written;

use fates::Fates;
use pure_rows::run_rows;
use std::process::ExitCode;

fn main(rt: HostRuntime) -> ExitCode {
    run_rows(&rt, "fates.rows", &Fates)
}

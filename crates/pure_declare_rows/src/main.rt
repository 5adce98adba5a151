//! Lemmas with haves, whose trees are made by hand, held against rows that say what a call which declares them leaves.
#![tactic(auto)]

mod commands;
mod facts;
mod kept;
mod lines;
mod quotes;
mod rows;
mod settings;

use rows::run_haves;
use std::process::ExitCode;

fn main(rt: HostRuntime) -> ExitCode {
    run_haves(&rt, "haves.rows")
}

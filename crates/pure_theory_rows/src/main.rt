//! Holds the rows of `theories.rows` and `look_ups.rows` against the calls on theories.
#![tactic(auto)]

mod ancestors;
mod begins;
mod declarations;
mod definitions;
mod instances;
mod kept;
mod look_ups;
mod looked_up;
mod names;
mod notation;
mod promises;
mod sessions;
mod stop;
mod words;

use crate::looked_up::run_look_ups;
use crate::words::Theories;
use pure_rows::run_rows;
use std::process::ExitCode;

fn main(rt: HostRuntime) -> ExitCode {
    let runs = [
        run_rows(&rt, "theories.rows", &Theories),
        run_look_ups(&rt, "look_ups.rows"),
    ];
    if runs.iter().all(|run| *run == ExitCode::SUCCESS) {
        ExitCode::SUCCESS
    } else {
        ExitCode::FAILURE
    }
}

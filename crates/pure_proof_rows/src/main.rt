//! Proofs step by step, and whole ones, held against rows that were written by hand.
#![tactic(auto)]

mod advance;
mod faults;
mod lemmas;
mod lines;
mod outcomes;
mod places;
mod proofs;
mod sessions;
mod steps;
mod terms;

use crate::lemmas::run_steps;
use crate::sessions::run_proofs;
use std::process::ExitCode;

fn main(rt: HostRuntime) -> ExitCode {
    let steps = run_steps(&rt);
    let proofs = run_proofs(&rt);
    if steps == ExitCode::SUCCESS {
        proofs
    } else {
        steps
    }
}

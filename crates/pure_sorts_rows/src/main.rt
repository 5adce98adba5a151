//! Unifiers of types and certified terms, which rest on an order of sorts, held against rows that were written by hand
//! from the rules.
#![tactic(auto)]

mod asked;
mod certified;
mod declared;
mod listed;
mod read;
mod rows;
mod unified;

use rows::run_declared;
use std::process::ExitCode;

fn main(rt: HostRuntime) -> ExitCode {
    let certified = run_declared(&rt, "certify.rows");
    let unified = run_declared(&rt, "unify.rows");
    if certified == ExitCode::SUCCESS {
        unified
    } else {
        certified
    }
}

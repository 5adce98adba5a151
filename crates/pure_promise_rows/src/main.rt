//! Promises, joined lemmas and their rows, held against rows that were written by hand.
#![tactic(auto)]

mod accept;
mod faults;
mod grounds;
mod lemmas;
mod names;
mod order;
mod paired;
mod promises;
mod session;
mod table;
mod theorems;

use crate::names::own_names;
use crate::promises::run_promises;
use std::process::ExitCode;

fn main(rt: HostRuntime) -> ExitCode {
    match own_names(rt.alloc()) {
        Ok(names) => run_promises(&rt, &names),
        Err(_) => ExitCode::FAILURE,
    }
}

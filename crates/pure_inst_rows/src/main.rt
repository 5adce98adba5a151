//! Maps on theorems, held against rows of answers that were written by hand.
#![tactic(auto)]

mod answers;
mod calls;
mod names;
mod raised;

use crate::calls::outcome_of;
use pure_rows::{Outcome, Row, Subject, run_rows};
use pure_shown::Theories;
use std::alloc::Global;
use std::process::ExitCode;
use std::rt::Files;

/// The maps on theorems over two theories.
#[derive(Drop)]
struct Instances {
    theories: Theories,
}

impl Subject for Instances {
    fn outcome<R: Files + Print + AllocGlobal>(
        &self,
        _rt: &R,
        alloc: Global,
        row: &Row,
    ) -> Outcome {
        outcome_of(alloc, &self.theories, row).unwrap_or(Outcome::Unreadable)
    }
}

fn main(rt: HostRuntime) -> ExitCode {
    match Theories::make(rt.alloc()) {
        Ok(theories) => run_rows(&rt, "instances.rows", &Instances { theories }),
        Err(_) => ExitCode::FAILURE,
    }
}

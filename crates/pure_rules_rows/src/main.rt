//! The inferences, held against rows of answers that were written by hand.
#![tactic(auto)]

mod answers;
mod calls;
mod facts;
mod rows;
mod theory;

use crate::rows::outcome_of;
use crate::theory::{Small, usual_theory};
use pure_rows::{Outcome, Row, Subject, run_rows};
use std::alloc::Global;
use std::process::ExitCode;
use std::rt::Files;

/// The inferences over a theory.
#[derive(Drop)]
struct Inferences {
    thy: Small,
}

impl Subject for Inferences {
    fn outcome<R: Files + Print + AllocGlobal>(
        &self,
        _rt: &R,
        alloc: Global,
        row: &Row,
    ) -> Outcome {
        outcome_of(alloc, &self.thy, row).unwrap_or(Outcome::Unreadable)
    }
}

fn main(rt: HostRuntime) -> ExitCode {
    match usual_theory(rt.alloc()) {
        Some(thy) => run_rows(&rt, "rules.rows", &Inferences { thy }),
        None => ExitCode::FAILURE,
    }
}

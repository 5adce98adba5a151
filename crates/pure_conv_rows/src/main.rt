//! Conversions, held against rows of answers that were written by hand.
#![tactic(auto)]

mod answers;
mod calls;
mod constants;

use crate::calls::outcome_of;
use pure_rows::{Outcome, Row, Subject, run_rows};
use pure_shown::Theories;
use std::alloc::Global;
use std::process::ExitCode;
use std::rt::Files;

/// The conversions over two theories.
#[derive(Drop)]
struct Conversions {
    theories: Theories,
}

impl Subject for Conversions {
    fn outcome<R: Files + Print + AllocGlobal>(
        &self,
        _rt: &R,
        alloc: Global,
        row: &Row,
    ) -> Outcome {
        outcome_of(alloc, &self.theories, row).unwrap_or(Outcome::Unreadable)
    }
}

fn main(rt: HostRuntime) -> ExitCode {
    match Theories::make(rt.alloc()) {
        Ok(theories) => run_rows(&rt, "conversions.rows", &Conversions { theories }),
        Err(_) => ExitCode::FAILURE,
    }
}

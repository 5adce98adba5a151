//! Holds the rows of `elab.rows` against the calls that elaborate.
#![tactic(auto)]

mod faults;
mod fixed;
mod read;
mod theory;
mod words;

use crate::theory::{Theory, make_early_theory, make_theory};
use crate::words::Elaboration;
use pure_rows::run_rows;
use std::mem;
use std::process::ExitCode;
use std::test::Fail;

/// Holds the rows against elaboration in the theory, and before the last of its arities is declared.
fn run_in(rt: &HostRuntime, late: &Theory) -> Result<ExitCode, Fail> {
    let early = make_early_theory(rt.alloc())?;
    let elaboration = Elaboration {
        early: &early,
        late,
    };
    let code = run_rows(rt, "elab.rows", &elaboration);
    mem::forget(early);
    Ok(code)
}

fn main(rt: HostRuntime) -> Result<ExitCode, Fail> {
    let late = make_theory(rt.alloc())?;
    let code = run_in(&rt, &late);
    mem::forget(late);
    code
}

//! Unification of patterns, held against rows: some were written by hand, others have a planted solution or none.
#![tactic(auto)]

mod asked;
mod entries;
mod notes;
mod patterns;
mod sides;

use crate::patterns::Patterns;
use pure_rows::run_rows;
use std::process::ExitCode;

fn main(rt: HostRuntime) -> ExitCode {
    let patterns = run_rows(&rt, "patterns.rows", &Patterns);
    let planted = run_rows(&rt, "planted.rows", &Patterns);
    if patterns != ExitCode::SUCCESS {
        return patterns;
    }
    planted
}

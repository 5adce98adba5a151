//! Steps of goals without unification, and pairs of theorems, held against rows that were written by hand.
#![tactic(auto)]

mod answers;
mod asked;
mod calls;
mod goals;
mod modulo;
mod sides;
mod texts;

use crate::goals::Goals;
use crate::modulo::Modulo;
use pure_rows::{read_glossary, run_rows};
use std::process::ExitCode;

fn main(rt: HostRuntime) -> ExitCode {
    let Some(words) = read_glossary(&rt, "goals.words") else {
        return ExitCode::FAILURE;
    };
    let goals = run_rows(&rt, "goals.rows", &Goals { words });
    let modulo = run_rows(&rt, "modulo.rows", &Modulo);
    if goals == ExitCode::SUCCESS {
        modulo
    } else {
        goals
    }
}

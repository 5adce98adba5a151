//! Tokens, theories, terms and types of texts, held against rows that were written by hand from the rules.
#![tactic(auto)]

mod say;
mod source;
mod term;
mod texts;
mod theories;
mod theory;
mod tokens;

use pure_rows::run_rows;
use std::process::ExitCode;
use texts::Texts;
use theories::Theories;
use tokens::Tokens;

fn main(rt: HostRuntime) -> ExitCode {
    let runs = [
        run_rows(&rt, "tokens.rows", &Tokens),
        run_rows(&rt, "theories.rows", &Theories),
        run_rows(&rt, "texts.rows", &Texts),
    ];
    if runs.iter().all(|run| *run == ExitCode::SUCCESS) {
        ExitCode::SUCCESS
    } else {
        ExitCode::FAILURE
    }
}

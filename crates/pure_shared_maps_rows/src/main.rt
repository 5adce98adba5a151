//! Shelves, lists and maps that grow, held against rows that were written by hand.
#![tactic(auto)]

mod grown;
mod shelves;
mod structures;

use pure_rows::run_rows;
use std::process::ExitCode;
use structures::Structures;

fn main(rt: HostRuntime) -> ExitCode {
    run_rows(&rt, "shared_maps.rows", &Structures)
}

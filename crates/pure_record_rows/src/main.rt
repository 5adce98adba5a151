//! Records that are read and printed, held against rows that were written by hand from the grammar.
#![tactic(auto)]

mod records;
mod source;

use pure_rows::run_rows;
use records::Records;
use std::process::ExitCode;

fn main(rt: HostRuntime) -> ExitCode {
    run_rows(&rt, "records.rows", &Records)
}

//! Holds the rows of `graph.rows` against loading: directories and the sessions that they make.
#![tactic(auto)]

mod dangling;
mod directories;
mod faults;
mod numbered;
mod words;
mod written;

use crate::faults::fault_outcome;
use crate::words::outcome_of;
use pure_rows::{Outcome, Row, Tally, read_file};
use std::alloc::Global;
use std::process::ExitCode;
use std::rt::Files;
use std::thread::Threads;

/// The file of rows.
const FILE: &str = "graph.rows";

/// What comes of a row.
fn outcome<R: Files + Print + AllocGlobal + Threads + Sync>(
    rt: &R,
    alloc: Global,
    row: &Row,
) -> Outcome {
    if row.field(0) == b"fault".as_slice() {
        return fault_outcome(alloc, row);
    }
    match outcome_of(rt, alloc, rt, row) {
        Ok(outcome) => outcome,
        Err(_) => Outcome::Memory,
    }
}

/// Holds each row against the directory that it makes. Fails where one doesn't hold, where there is none, or the file can't be read.
fn run_file<R: Files + Print + AllocGlobal + Threads + Sync>(rt: &R) -> ExitCode {
    let alloc = rt.alloc();
    let Some(text) = read_file(rt, FILE) else {
        return ExitCode::FAILURE;
    };
    let mut tally = Tally::begin(FILE);
    for line in text.split(|byte| *byte == b'\n') {
        if let Some(row) = tally.next_row(rt, alloc, line) {
            let outcome = outcome(rt, alloc, &row);
            tally.add(rt, outcome);
        }
    }
    tally.end(rt)
}

fn main(rt: HostRuntime) -> ExitCode {
    run_file(&rt)
}

//! Plays on cores and on boards, held against files of rows.
#![tactic(auto)]

mod acts;
mod cores;
mod fields;
mod letters;
mod plays;
mod pools;
mod searches;
mod turns;

use crate::acts::acts;
use crate::cores::{core, drains};
use crate::plays::plays;
use crate::pools::{meets, runs};
use crate::searches::breaks;
use pure_rows::{Fault, Outcome, Row, Tally, named, read_file};
use std::alloc::Global;
use std::process::ExitCode;
use std::rt::Files;
use std::sync::Wait;
use std::thread::Threads;

/// The files of rows.
const FILES: [&str; 2] = ["core.rows", "board.rows"];

/// What a row speaks of.
#[derive(Clone, Copy)]
enum Kind {
    Drains,
    Core,
    Plays,
    Runs,
    Meets,
    Breaks,
    Acts,
}

/// The first fields of rows.
const KINDS: [(&[u8], Kind); 7] = [
    (b"drains", Kind::Drains),
    (b"core", Kind::Core),
    (b"plays", Kind::Plays),
    (b"runs", Kind::Runs),
    (b"meets", Kind::Meets),
    (b"breaks", Kind::Breaks),
    (b"acts", Kind::Acts),
];

/// Whether the row holds.
fn is_met<R: Threads + Wait + Sync>(rt: &R, alloc: Global, row: &Row) -> Result<bool, Fault> {
    match named(&KINDS, row.field(0)) {
        Some(Kind::Drains) => drains(alloc, row),
        Some(Kind::Core) => core(alloc, row),
        Some(Kind::Plays) => plays(rt, alloc, row),
        Some(Kind::Runs) => runs(rt, alloc, row),
        Some(Kind::Meets) => meets(rt, alloc, row),
        Some(Kind::Breaks) => breaks(rt, alloc, row),
        Some(Kind::Acts) => acts(rt, alloc, row),
        None => Err(Fault::Unreadable),
    }
}

/// Holds each row of the file against its play. Fails where one doesn't hold, where there is none, or the file can't be read.
fn run_file<R: Files + Print + AllocGlobal + Threads + Wait + Sync>(
    rt: &R,
    file: &str,
) -> ExitCode {
    let alloc = rt.alloc();
    let Some(text) = read_file(rt, file) else {
        return ExitCode::FAILURE;
    };
    let mut tally = Tally::begin(file);
    for line in text.split(|byte| *byte == b'\n') {
        if let Some(row) = tally.next_row(rt, alloc, line) {
            let outcome = Outcome::of_test(is_met(rt, alloc, &row));
            tally.add(rt, outcome);
        }
    }
    tally.end(rt)
}

fn main(rt: HostRuntime) -> ExitCode {
    let mut code = ExitCode::SUCCESS;
    for file in FILES {
        if run_file(&rt, file) != ExitCode::SUCCESS {
            code = ExitCode::FAILURE;
        }
    }
    code
}

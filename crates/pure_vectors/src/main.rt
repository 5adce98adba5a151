//! Whole runs of the top call, on libraries in memory and on generated ones, held against files of rows.
#![tactic(auto)]

mod fates;
mod files;
mod folders;
mod gates;
mod generated;
mod heeded;
mod marks;
mod missing;
mod sessions;
mod subjects;
mod tables;
mod texts;
mod wanted;
mod words;
mod world;

use crate::marks::is_line_feed;
use crate::sessions::Session;
use crate::subjects::hold;
use pure_rows::{Tally, read_file};
use std::process::ExitCode;
use std::rt::Files;
use std::sync::Wait;
use std::thread::Threads;

/// The files of rows.
const FILES: [&str; 16] = [
    "examples.rows",
    "guide.rows",
    "worked.rows",
    "commands.rows",
    "proofs.rows",
    "haves.rows",
    "limits.rows",
    "faults.rows",
    "generated.rows",
    "policies.rows",
    "places.rows",
    "shows.rows",
    "tries.rows",
    "finds.rows",
    "rests.rows",
    "replays.rows",
];

/// Holds each row of the file against its runs. Fails where one doesn't hold, where there is none, or the file can't be read.
fn run_file<R: Files + Print + AllocGlobal + Threads + Wait + Sync>(
    rt: &R,
    file: &str,
) -> ExitCode {
    let alloc = rt.alloc();
    let Some(text) = read_file(rt, file) else {
        return ExitCode::FAILURE;
    };
    let mut session = Session::none(alloc);
    let mut tally = Tally::begin(file);
    for line in text.split(is_line_feed) {
        if let Some(row) = tally.next_row(rt, alloc, line) {
            let outcome = hold(rt, alloc, &mut session, &row);
            tally.add(rt, outcome);
        }
    }
    tally.end(rt)
}

fn main(rt: HostRuntime) -> ExitCode {
    let mut code = ExitCode::SUCCESS;
    for file in FILES {
        if run_file(&rt, file) != ExitCode::SUCCESS {
            code = ExitCode::FAILURE;
        }
    }
    code
}

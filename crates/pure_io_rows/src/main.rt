//! The library and the sink of the real system, and those in memory, held against rows.
#![tactic(auto)]

mod answers;
mod folder;
mod making;
mod memory;
mod place;
mod words;

use memory::Memory;
use place::run_in_new_folder;
use pure_rows::run_rows;
use std::process;
use std::process::ExitCode;

fn main(rt: HostRuntime) -> ExitCode {
    let memory = run_rows(&rt, "memory.rows", &Memory);
    let folder = run_in_new_folder(&rt, "folder.rows", process::id(rt.process()));
    if memory == ExitCode::SUCCESS {
        folder
    } else {
        memory
    }
}

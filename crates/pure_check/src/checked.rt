//! A check: the theories of the library, checked, and their table.
ghost use Rattle.std.specs.Prelude.{◌≡◌, ◌≤◌, Err};
ghost use Rattle.pure_io.specs.Outside.{Rose};
ghost use Rattle.pure_check.specs.Formed.{IsDone};
ghost use Rattle.pure_words.specs.declared.job.Job.TheVariants as job;

use crate::answer::Answer;
use crate::formed::Extent;
use crate::tables::{Asking, table_answer};
use pure_graph::LoadFault;
use pure_io::{Gate, Library};
use pure_words::Cancels;
use std::alloc::Global;
use std::rt::Files;
use std::sync::Wait;
use std::thread::Threads;

/// Has the library's theories checked. It may wait for ever.
pub(crate) fn check<R: Files + Print + AllocGlobal + Threads + Wait + Sync, L: Library, G: Gate>(
    rt: &R,
    alloc: Global,
    workers: u32,
    fail_fast: bool,
    cancels: &Cancels,
    library: &mut L,
    gate: &G,
) -> Result<Answer, LoadFault>
    requires { 1 ≤ workers }
    ensures ok { IsDone (job.Check workers fail_fast cancels.now) (L.files library.old) result }
    ensures read_fault { result ≡ Err LoadFault.ReadFault → Rose (L.faults library.old) (L.faults library.new) }
    ensures files { L.files library.new ≡ L.files library.old }
    ensures later { L.faults library.old ≤ L.faults library.new }
{
    let asking = Asking {
        workers,
        fail_fast,
        cancels: cancels.list(),
    };
    table_answer(rt, alloc, library, &asking, Extent::Whole, gate)
}

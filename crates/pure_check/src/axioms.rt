//! What is said of a lemma: on which axioms and definitions it rests.
ghost use Rattle.std.specs.Prelude.{◌≡◌, ◌≤◌, Err, IfOk, length, map};
ghost use Rattle.pure_io.specs.Outside.{Rose};
ghost use Rattle.pure_promise_fates.specs.Entries.{AreEntries};
ghost use Rattle.pure_check_work.specs.Promise.Seen.{seen, reported};
ghost use Rattle.pure_citations.specs.Cited.{forks, AreInSession, AreBeside};
ghost use Rattle.pure_citations.specs.Listed.{IsSaidOf};
ghost use Rattle.pure_check.specs.Formed.{IsDone};
ghost use Rattle.pure_words.specs.declared.job.Job.TheVariants as job;

use crate::answer::Answer;
use crate::formed::{Extent, Formed};
use crate::tables::{Asking, table_answer};
use pure_check_work::declare::Duty;
use pure_check_work::promise::Entry;
use pure_citations::{Listing, said_of};
use pure_graph::LoadFault;
use pure_io::{Gate, Library};
use pure_print::Row;
use pure_text::Text;
use pure_typ::NamesByBase;
use std::alloc::{AllocError, Global};
use std::rt::Files;
use std::sync::{Arc, Wait};
use std::thread::Threads;

/// What is said of the lemma with this full name.
pub(crate) fn axioms_of(
    alloc: Global,
    names: &NamesByBase,
    entries: &[Entry],
    duties: &[Arc<Duty>],
    rows: &[Row],
    name: &Text,
) -> Result<Formed, AllocError>
    requires entries { AreEntries (map reported entries.now) }
    requires session { AreInSession names.now (forks duties.now) }
    requires beside { AreBeside (forks duties.now) (seen entries.now) }
    requires long { length duties.now ≡ length entries.now }
    ensures { IfOk result (λ f. IsSaidOf names.now (forks duties.now) (seen entries.now) rows.now name.now f.text f.clean) }
{
    let Listing { text, clean } = said_of(alloc, names, entries, duties, rows, name.bytes())?;
    Ok(Formed { text, clean })
}

/// Has the library's theories checked, and says on what the lemma with this full name rests. It may wait for ever.
pub(crate) fn check_axioms<
    R: Files + Print + AllocGlobal + Threads + Wait + Sync,
    L: Library,
    G: Gate,
>(
    rt: &R,
    alloc: Global,
    workers: u32,
    name: &Text,
    library: &mut L,
    gate: &G,
) -> Result<Answer, LoadFault>
    requires { 1 ≤ workers }
    ensures ok { IsDone (job.Axioms workers name.now) (L.files library.old) result }
    ensures read_fault { result ≡ Err LoadFault.ReadFault → Rose (L.faults library.old) (L.faults library.new) }
    ensures files { L.files library.new ≡ L.files library.old }
    ensures later { L.faults library.old ≤ L.faults library.new }
{
    let asking = Asking {
        workers,
        fail_fast: false,
        cancels: &[],
    };
    table_answer(rt, alloc, library, &asking, Extent::Axioms { name }, gate)
}

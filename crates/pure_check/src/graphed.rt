//! The graph of what lemmas rest on.
ghost use Rattle.std.specs.Prelude.{◌≡◌, ◌≢◌, ◌≤◌, Err, IfOk, length, map};
ghost use Rattle.std.specs.List.{list_all};
ghost use Rattle.pure_io.specs.Outside.{Rose};
ghost use Rattle.pure_graph.specs.Session as graph;
ghost use Rattle.pure_promise_fates.specs.Entries.{AreEntries};
ghost use Rattle.pure_session.specs.Waiting.{all_loaded};
ghost use Rattle.pure_check_work.specs.Promise.Seen.{seen, reported};
ghost use Rattle.pure_check_work.specs.SessionLaws.Loaded.{IsLoadedSession};
ghost use Rattle.pure_citations.specs.Cited.{forks, AreInSession, AreBeside};
ghost use Rattle.pure_citations.specs.Drawn.{AreNamedRests, IsDrawing};
ghost use Rattle.pure_check.specs.Formed.{IsDone, IsSeenSession, IsGraphTextOf};
ghost use Rattle.pure_check.specs.Jobs.Graph.{names_of};
ghost use Rattle.pure_check.specs.Meaning.{is_good};
ghost use Rattle.pure_words.specs.declared.job.Job.TheVariants as job;

use crate::answer::Answer;
use crate::formed::{Extent, Formed, are_good};
use crate::tables::{Asking, session_answer};
use pure_check_work::declare::Duty;
use pure_check_work::promise::Entry;
use pure_citations::drawing;
use pure_graph::LoadFault;
use pure_io::{Gate, Library};
use pure_print::Row;
use pure_session::{Loaded, Session, load};
use pure_text::Text;
use pure_typ::NamesByBase;
use std::alloc::{AllocError, Global};
use std::rt::Files;
use std::sync::{Arc, Wait};
use std::thread::Threads;

/// The graph of a session, whose theories have these names.
pub(crate) fn graph_of(
    alloc: Global,
    names: &NamesByBase,
    entries: &[Entry],
    duties: &[Arc<Duty>],
    rows: &[Row],
    theories: &[Text],
) -> Result<Formed, AllocError>
    requires entries { AreEntries (map reported entries.now) }
    requires session { AreInSession names.now (forks duties.now) }
    requires beside { AreBeside (forks duties.now) (seen entries.now) }
    requires long { length duties.now ≡ length entries.now }
    requires rests { AreNamedRests names.now (forks duties.now) (seen entries.now) }
    ensures { IfOk result (λ f. IsDrawing names.now theories.now (forks duties.now) (seen entries.now) rows.now f.text × (list_all is_good rows.now ≡ f.clean)) }
{
    let text = drawing(alloc, names, entries, duties, theories, rows)?;
    Ok(Formed {
        text,
        clean: are_good(rows),
    })
}

/// The names of the theories.
fn theory_names(alloc: Global, theories: &[Loaded]) -> Result<Vec<Text>, AllocError>
    ensures { IfOk result (λ names. names.items ≡ names_of (all_loaded theories.now)) }
{
    let mut names = Vec::with_capacity(alloc, theories.len())?;
    for theory in theories {
        names.push(theory.name.copy(alloc)?)?;
    }
    Ok(names)
}

/// Has the session checked, whose theories have these names, and draws its graph. It may wait for ever.
fn with_names<R: Threads + Wait + Sync, G: Gate>(
    rt: &R,
    alloc: Global,
    session: Session,
    theories: &[Text],
    workers: u32,
    gate: &G,
) -> Result<Answer, LoadFault>
    requires loaded { IsLoadedSession session.names (all_loaded session.theories.items) }
    requires names { theories.now ≡ names_of (all_loaded session.theories.items) }
    requires some { 1 ≤ workers }
    ensures ok { IfOk result (λ a. (S : graph.Session) → IsSeenSession S session → IsGraphTextOf S workers a.run a.formed.text a.formed.clean) }
    ensures fault { result ≢ Err LoadFault.ReadFault }
{
    let asking = Asking {
        workers,
        fail_fast: false,
        cancels: &[],
    };
    session_answer(
        rt,
        alloc,
        session,
        &asking,
        Extent::Graph { theories },
        gate,
    )
}

/// Has the session checked, and draws its graph. It may wait for ever.
fn graph_answer<R: Threads + Wait + Sync, G: Gate>(
    rt: &R,
    alloc: Global,
    session: Session,
    workers: u32,
    gate: &G,
) -> Result<Answer, LoadFault>
    requires loaded { IsLoadedSession session.names (all_loaded session.theories.items) }
    requires some { 1 ≤ workers }
    ensures ok { IfOk result (λ a. (S : graph.Session) → IsSeenSession S session → IsGraphTextOf S workers a.run a.formed.text a.formed.clean) }
    ensures fault { result ≢ Err LoadFault.ReadFault }
{
    match theory_names(alloc, session.theories.as_slice()) {
        Ok(names) => with_names(rt, alloc, session, names.as_slice(), workers, gate),
        Err(_) => Err(LoadFault::Memory),
    }
}

/// Has the library's theories checked, and draws which lemma rests on what. It may wait for ever.
pub(crate) fn check_graph<
    R: Files + Print + AllocGlobal + Threads + Wait + Sync,
    L: Library,
    G: Gate,
>(rt: &R, alloc: Global, workers: u32, library: &mut L, gate: &G) -> Result<Answer, LoadFault>
    requires { 1 ≤ workers }
    ensures ok { IsDone (job.Graph workers) (L.files library.old) result }
    ensures read_fault { result ≡ Err LoadFault.ReadFault → Rose (L.faults library.old) (L.faults library.new) }
    ensures files { L.files library.new ≡ L.files library.old }
    ensures later { L.faults library.old ≤ L.faults library.new }
{
    match load(rt, alloc, library, rt, workers as usize) {
        Ok(session) => {
            session.names.are_session_texts();
            graph_answer(rt, alloc, session, workers, gate)
        }
        Err(LoadFault::ReadFault) => Err(LoadFault::ReadFault),
        Err(LoadFault::Memory) => Err(LoadFault::Memory),
    }
}

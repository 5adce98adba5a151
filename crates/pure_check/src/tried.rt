//! A lemma of the library's theories, tried.
ghost use Rattle.std.specs.Prelude.{◌≡◌, ◌≢◌, ◌≤◌, Err, IfOk, None};
ghost use Rattle.pure_io.specs.Outside.{Rose};
ghost use Rattle.pure_session.specs.Waiting.{all_loaded};
ghost use Rattle.pure_check_work.specs.SessionLaws.Loaded.{IsLoadedSession};
ghost use Rattle.pure_check.specs.Formed.{IsDone, IsLineOf};
ghost use Rattle.pure_words.specs.declared.job.Job.TheVariants as job;

use crate::answer::Answer;
use crate::formed::Formed;
use pure_check_work::theory_run::Checker;
use pure_graph::LoadFault;
use pure_io::Library;
use pure_session::{Session, load};
use pure_text::Text;
use pure_try::{is_found, line, try_lemma};
use std::alloc::{AllocError, Global};
use std::rt::Files;
use std::sync::Wait;
use std::thread::Threads;

/// What is said of the session's lemma with this full name.
fn line_answer<R: Threads + Wait + Sync>(
    rt: &R,
    alloc: Global,
    session: Session,
    workers: u32,
    name: &Text,
) -> Result<Answer, AllocError>
    requires loaded { IsLoadedSession session.names (all_loaded session.theories.items) }
    requires workers { (1 ≤ workers) × (workers ≤ 64) }
    ensures { IfOk result (λ a. IsLineOf session.names (all_loaded session.theories.items) name.now a) }
{
    let Session {
        names,
        theories,
        ..
    } = session;
    let checker = Checker::make(alloc, names, theories)?;
    let answer = try_lemma(rt, alloc, &checker, name.bytes(), workers)?;
    let text = line(alloc, name.bytes(), &answer)?;
    Ok(Answer {
        formed: Formed {
            text,
            clean: is_found(&answer),
        },
        run: None,
    })
}

/// The same, with want of memory as the one fault.
fn session_line<R: Threads + Wait + Sync>(
    rt: &R,
    alloc: Global,
    session: Session,
    workers: u32,
    name: &Text,
) -> Result<Answer, LoadFault>
    requires loaded { IsLoadedSession session.names (all_loaded session.theories.items) }
    requires workers { (1 ≤ workers) × (workers ≤ 64) }
    ensures ok { IfOk result (λ a. IsLineOf session.names (all_loaded session.theories.items) name.now a) }
    ensures fault { result ≢ Err LoadFault.ReadFault }
{
    match line_answer(rt, alloc, session, workers, name) {
        Ok(answer) => Ok(answer),
        Err(_) => Err(LoadFault::Memory),
    }
}

/// Loads the library's theories, and looks for a proof in one step of the lemma with this full name. The proofs of the lemmas
/// aren't run. It waits for the threads that it starts.
pub(crate) fn tried<R: Files + Print + AllocGlobal + Threads + Wait + Sync, L: Library>(
    rt: &R,
    alloc: Global,
    workers: u32,
    name: &Text,
    library: &mut L,
) -> Result<Answer, LoadFault>
    requires { (1 ≤ workers) × (workers ≤ 64) }
    ensures ok { IsDone (job.Try workers name.now) (L.files library.old) result }
    ensures read_fault { result ≡ Err LoadFault.ReadFault → Rose (L.faults library.old) (L.faults library.new) }
    ensures files { L.files library.new ≡ L.files library.old }
    ensures later { L.faults library.old ≤ L.faults library.new }
{
    match load(rt, alloc, library, rt, workers as usize) {
        Ok(session) => {
            session.names.are_session_texts();
            session_line(rt, alloc, session, workers, name)
        }
        Err(LoadFault::ReadFault) => Err(LoadFault::ReadFault),
        Err(LoadFault::Memory) => Err(LoadFault::Memory),
    }
}

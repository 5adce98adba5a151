//! Of which facts a lemma of the library's theories is an instance.
ghost use Rattle.std.specs.Prelude.{◌≡◌, ◌≢◌, ◌≤◌, Err, IfOk, None};
ghost use Rattle.pure_io.specs.Outside.{Rose};
ghost use Rattle.pure_session.specs.Waiting.{all_loaded};
ghost use Rattle.pure_check_work.specs.SessionLaws.Loaded.{IsLoadedSession};
ghost use Rattle.pure_check.specs.Formed.{IsDone, IsFoundSo};
ghost use Rattle.pure_words.specs.declared.job.Job.TheVariants as job;

use crate::answer::Answer;
use crate::formed::Formed;
use pure_check_work::theory_run::Checker;
use pure_find::{Found, find_lemma};
use pure_graph::LoadFault;
use pure_io::Library;
use pure_session::{Session, load};
use pure_text::Text;
use std::alloc::{AllocError, Global};
use std::rt::Files;
use std::thread::Threads;

/// What is found for the session's lemma with this full name.
fn found_answer(alloc: Global, session: Session, name: &Text) -> Result<Answer, AllocError>
    requires { IsLoadedSession session.names (all_loaded session.theories.items) }
    ensures { IfOk result (IsFoundSo session.names (all_loaded session.theories.items) name.now) }
{
    let Session {
        names,
        theories,
        ..
    } = session;
    let checker = Checker::make(alloc, names, theories)?;
    let Found { text, clean } = find_lemma(alloc, &checker, name.bytes())?;
    Ok(Answer {
        formed: Formed { text, clean },
        run: None,
    })
}

/// The same, with want of memory as the one fault.
fn session_found(alloc: Global, session: Session, name: &Text) -> Result<Answer, LoadFault>
    requires { IsLoadedSession session.names (all_loaded session.theories.items) }
    ensures ok { IfOk result (IsFoundSo session.names (all_loaded session.theories.items) name.now) }
    ensures fault { result ≢ Err LoadFault.ReadFault }
{
    match found_answer(alloc, session, name) {
        Ok(answer) => Ok(answer),
        Err(_) => Err(LoadFault::Memory),
    }
}

/// Loads the library's theories, and says of which facts the statement of the lemma with this full name is an instance. The
/// proofs of the lemmas aren't run.
pub(crate) fn found<R: Files + Print + AllocGlobal + Threads + Sync, L: Library>(
    rt: &R,
    alloc: Global,
    name: &Text,
    library: &mut L,
) -> Result<Answer, LoadFault>
    ensures ok { IsDone (job.Find name.now) (L.files library.old) result }
    ensures read_fault { result ≡ Err LoadFault.ReadFault → Rose (L.faults library.old) (L.faults library.new) }
    ensures files { L.files library.new ≡ L.files library.old }
    ensures later { L.faults library.old ≤ L.faults library.new }
{
    match load(rt, alloc, library, rt, 1) {
        Ok(session) => {
            session.names.are_session_texts();
            session_found(alloc, session, name)
        }
        Err(LoadFault::ReadFault) => Err(LoadFault::ReadFault),
        Err(LoadFault::Memory) => Err(LoadFault::Memory),
    }
}

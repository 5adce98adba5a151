//! The proof of a lemma of the library's theories, shown.
ghost use Rattle.std.specs.Prelude.{◌≡◌, ◌≢◌, ◌≤◌, Err, IfOk, None};
ghost use Rattle.pure_io.specs.Outside.{Rose};
ghost use Rattle.pure_session.specs.Waiting.{all_loaded};
ghost use Rattle.pure_check_work.specs.SessionLaws.Loaded.{IsLoadedSession};
ghost use Rattle.pure_check.specs.Formed.{IsDone, IsShownSo};
ghost use Rattle.pure_words.specs.declared.job.Job.TheVariants as job;

use crate::answer::Answer;
use crate::formed::Formed;
use pure_check_work::theory_run::Checker;
use pure_graph::LoadFault;
use pure_io::Library;
use pure_session::{Session, load};
use pure_show::{Shown, show_lemma};
use pure_text::Text;
use std::alloc::{AllocError, Global};
use std::rt::Files;
use std::thread::Threads;

/// What is shown of the session's lemma with this full name.
fn shown_answer(alloc: Global, session: Session, name: &Text) -> Result<Answer, AllocError>
    requires { IsLoadedSession session.names (all_loaded session.theories.items) }
    ensures { IfOk result (IsShownSo session.names (all_loaded session.theories.items) name.now) }
{
    let Session {
        names,
        theories,
        ..
    } = session;
    let checker = Checker::make(alloc, names, theories)?;
    let Shown { text, clean } = show_lemma(alloc, &checker, name.bytes())?;
    Ok(Answer {
        formed: Formed { text, clean },
        run: None,
    })
}

/// The same, with want of memory as the one fault.
fn session_shown(alloc: Global, session: Session, name: &Text) -> Result<Answer, LoadFault>
    requires { IsLoadedSession session.names (all_loaded session.theories.items) }
    ensures ok { IfOk result (IsShownSo session.names (all_loaded session.theories.items) name.now) }
    ensures fault { result ≢ Err LoadFault.ReadFault }
{
    match shown_answer(alloc, session, name) {
        Ok(answer) => Ok(answer),
        Err(_) => Err(LoadFault::Memory),
    }
}

/// Loads the library's theories, and shows the proof of the lemma with this full name. The proofs of the other lemmas aren't
/// run.
pub(crate) fn shown<R: Files + Print + AllocGlobal + Threads + Sync, L: Library>(
    rt: &R,
    alloc: Global,
    name: &Text,
    library: &mut L,
) -> Result<Answer, LoadFault>
    ensures ok { IsDone (job.Show name.now) (L.files library.old) result }
    ensures read_fault { result ≡ Err LoadFault.ReadFault → Rose (L.faults library.old) (L.faults library.new) }
    ensures files { L.files library.new ≡ L.files library.old }
    ensures later { L.faults library.old ≤ L.faults library.new }
{
    match load(rt, alloc, library, rt, 1) {
        Ok(session) => {
            session.names.are_session_texts();
            session_shown(alloc, session, name)
        }
        Err(LoadFault::ReadFault) => Err(LoadFault::ReadFault),
        Err(LoadFault::Memory) => Err(LoadFault::Memory),
    }
}

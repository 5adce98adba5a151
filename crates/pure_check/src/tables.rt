//! The theories of a library, checked, and the text of their table.
ghost use Rattle.std.specs.Prelude.{◌≡◌, ◌≢◌, ◌≤◌, Err, IfOk};
ghost use Rattle.pure_io.specs.Outside.{Rose};
ghost use Rattle.pure_graph.specs.Session as graph;
ghost use Rattle.pure_session.specs.Waiting.{all_loaded};
ghost use Rattle.pure_check_work.specs.SessionLaws.Loaded.{IsLoadedSession};
ghost use Rattle.pure_check.specs.Formed.{IsSeenSession, IsTabled, IsTextOf, asked_by};

use crate::answer::Answer;
use crate::formed::{Extent, form};
use pure_check_work::{Checking, checked};
use pure_graph::LoadFault;
use pure_io::{Gate, Library};
use pure_policy::policy_of;
use pure_session::{Session, load};
use pure_words::CancelWord;
use std::alloc::{AllocError, Global};
use std::rt::Files;
use std::sync::Wait;
use std::thread::Threads;

/// How theories are to be checked: by so many workers, whether the first fault cancels all, and the cancellations.
#[derive(Clone, Copy)]
pub(crate) struct Asking<'w> {
    pub(crate) workers: u32,
    pub(crate) fail_fast: bool,
    pub(crate) cancels: &'w [CancelWord],
}

/// Has the session checked as is asked, and forms as much as is asked for of the text of its table.
fn run_session<R: Threads + Wait + Sync, G: Gate>(
    rt: &R,
    alloc: Global,
    session: Session,
    asking: &Asking,
    extent: Extent<'_>,
    gate: &G,
) -> Result<Answer, AllocError>
    requires loaded { IsLoadedSession session.names (all_loaded session.theories.items) }
    requires some { 1 ≤ asking.now.workers }
    ensures { IfOk result (λ a. (S : graph.Session) → IsSeenSession S session → IsTextOf S (asked_by asking.now) extent.entry a.run a.formed.text a.formed.clean) }
{
    let Session {
        names,
        theories,
        refused,
        files,
    } = session;
    let policy = policy_of(alloc, theories.as_slice(), asking.fail_fast, asking.cancels)?;
    let work = Checking::make(alloc, names, theories)?;
    let board = checked(rt, &work, policy, asking.workers, gate)?;
    let formed = form(alloc, &work, &board, refused.as_slice(), files, extent)?;
    Ok(Answer {
        formed,
        run: Some(board),
    })
}

/// The same, with want of memory as the one fault.
pub(crate) fn session_answer<R: Threads + Wait + Sync, G: Gate>(
    rt: &R,
    alloc: Global,
    session: Session,
    asking: &Asking,
    extent: Extent<'_>,
    gate: &G,
) -> Result<Answer, LoadFault>
    requires loaded { IsLoadedSession session.names (all_loaded session.theories.items) }
    requires some { 1 ≤ asking.now.workers }
    ensures ok { IfOk result (λ a. (S : graph.Session) → IsSeenSession S session → IsTextOf S (asked_by asking.now) extent.entry a.run a.formed.text a.formed.clean) }
    ensures fault { result ≢ Err LoadFault.ReadFault }
{
    match run_session(rt, alloc, session, asking, extent, gate) {
        Ok(answer) => Ok(answer),
        Err(_) => Err(LoadFault::Memory),
    }
}

/// Loads the library's theories, has them checked as is asked, and forms the text of the table, all of it or its last line.
/// It may wait for ever.
pub(crate) fn table_answer<
    R: Files + Print + AllocGlobal + Threads + Wait + Sync,
    L: Library,
    G: Gate,
>(
    rt: &R,
    alloc: Global,
    library: &mut L,
    asking: &Asking,
    extent: Extent<'_>,
    gate: &G,
) -> Result<Answer, LoadFault>
    requires { 1 ≤ asking.now.workers }
    ensures ok { IsTabled extent.entry (asked_by asking.now) (L.files library.old) result }
    ensures read_fault { result ≡ Err LoadFault.ReadFault → Rose (L.faults library.old) (L.faults library.new) }
    ensures files { L.files library.new ≡ L.files library.old }
    ensures later { L.faults library.old ≤ L.faults library.new }
{
    match load(rt, alloc, library, rt, asking.workers as usize) {
        Ok(session) => {
            session.names.are_session_texts();
            session_answer(rt, alloc, session, asking, extent, gate)
        }
        Err(LoadFault::ReadFault) => Err(LoadFault::ReadFault),
        Err(LoadFault::Memory) => Err(LoadFault::Memory),
    }
}

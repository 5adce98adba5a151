//! A check whose rows are written behind the places at which their commands stand.
ghost use Rattle.std.specs.Prelude.{◌≡◌, ◌≤◌, Err, IfOk};
ghost use Rattle.pure_io.specs.Outside.{Rose};
ghost use Rattle.pure_graph.specs.Session as graph;
ghost use Rattle.pure_session.specs.Waiting.{all_loaded};
ghost use Rattle.pure_check_work.specs.SessionLaws.Loaded.{IsLoadedSession};
ghost use Rattle.pure_check.specs.Formed.{IsDone, IsSeenSession};
ghost use Rattle.pure_check.specs.PlacedText.{IsPlacedTextOf};
ghost use Rattle.pure_words.specs.declared.job.Job.TheVariants as job;

use crate::answer::Answer;
use crate::formed::Extent;
use crate::tables::{Asking, session_answer};
use pure_graph::LoadFault;
use pure_io::{Gate, Library};
use pure_row_places::{refused_scans, scans};
use pure_session::{Session, load};
use std::alloc::Global;
use std::rt::Files;
use std::sync::Wait;
use std::thread::Threads;

/// Has the session checked, and forms the text of its table with the places of its rows. Of files that are refused it reads
/// the headers once more where their reasons speak of them. It may wait for ever.
fn placed_answer<R: Files + Print + AllocGlobal + Threads + Wait + Sync, L: Library, G: Gate>(
    rt: &R,
    alloc: Global,
    session: Session,
    workers: u32,
    library: &mut L,
    gate: &G,
) -> Result<Answer, LoadFault>
    requires loaded { IsLoadedSession session.names (all_loaded session.theories.items) }
    requires some { 1 ≤ workers }
    ensures ok { IfOk result (λ a. (S : graph.Session) → IsSeenSession S session → IsPlacedTextOf S (L.files library.old) workers a.run a.formed.text a.formed.clean) }
    ensures read_fault { result ≡ Err LoadFault.ReadFault → Rose (L.faults library.old) (L.faults library.new) }
    ensures files { L.files library.new ≡ L.files library.old }
    ensures later { L.faults library.old ≤ L.faults library.new }
{
    let theories = scans(alloc, session.theories.as_slice())?;
    let refused = refused_scans(rt, alloc, library, session.refused.as_slice())?;
    let asking = Asking {
        workers,
        fail_fast: false,
        cancels: &[],
    };
    let extent = Extent::Placed {
        theories: theories.as_slice(),
        refused: refused.as_slice(),
    };
    session_answer(rt, alloc, session, &asking, extent, gate)
}

/// Has the library's theories checked, and says of each row where its command stands. It may wait for ever.
pub(crate) fn check_placed<
    R: Files + Print + AllocGlobal + Threads + Wait + Sync,
    L: Library,
    G: Gate,
>(rt: &R, alloc: Global, workers: u32, library: &mut L, gate: &G) -> Result<Answer, LoadFault>
    requires { 1 ≤ workers }
    ensures ok { IsDone (job.Places workers) (L.files library.old) result }
    ensures read_fault { result ≡ Err LoadFault.ReadFault → Rose (L.faults library.old) (L.faults library.new) }
    ensures files { L.files library.new ≡ L.files library.old }
    ensures later { L.faults library.old ≤ L.faults library.new }
{
    match load(rt, alloc, library, rt, workers as usize) {
        Ok(session) => {
            session.names.are_session_texts();
            placed_answer(rt, alloc, session, workers, library, gate)
        }
        Err(LoadFault::ReadFault) => Err(LoadFault::ReadFault),
        Err(LoadFault::Memory) => Err(LoadFault::Memory),
    }
}

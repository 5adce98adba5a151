//! The session of a library.
ghost use Rattle.std.specs.Prelude.{◌≡◌, ◌≤◌, IfOk, IfSome};
ghost use Rattle.pure_io.specs.Outside.{Rose};
ghost use Rattle.pure_graph.specs.SessionNames.{AreNames};
ghost use Rattle.pure_session.specs.Refused.{all_refused};
ghost use Rattle.pure_session.specs.ToldTheories.{AreTheoriesOf, IsShownSession};
ghost use Rattle.pure_session.specs.Waiting.{all_loaded};

use crate::loading::{Theories, load_theories};
use crate::names::names_of;
use crate::order::Loaded;
use crate::reason::RefusedFile;
use pure_graph::LoadFault;
use pure_io::Library;
use pure_threads::threads_in_room;
use pure_typ::Names;
use std::alloc::Global;
use std::rt::Files;
use std::thread::Threads;

/// The session of a library: its names, the theories that are loaded, in load order, the files that are refused, in byte
/// order of their names, and the number of all files.
#[derive(Drop)]
pub struct Session {
    pub names: Names,
    pub theories: Vec<Loaded>,
    pub refused: Vec<RefusedFile>,
    pub files: u32,
}

/// The bytes of the stack that a thread has as a rule where none is asked for, and those that a worker takes later.
const ROOM: usize = 88 << 20;

/// How many threads there is room for, the caller's among them, at most so many.
fn in_room(alloc: Global, number: usize) -> usize {
    threads_in_room(alloc, ROOM, number.saturating_sub(1)).saturating_add(1)
}

/// The session of a library. At most one byte more than a file may have is read of each, and nothing of those behind the
/// first 256. What they say by themselves, and the names, are found in so many threads at most, and in no more than
/// there is room for.
pub fn load<R: Files + Print + AllocGlobal, T: Threads + Sync, L: Library>(
    rt: &R,
    alloc: Global,
    library: &mut L,
    threads: &T,
    number: usize,
) -> Result<Session, LoadFault>
    ensures told { IfOk result (λ s. AreTheoriesOf (L.files library.old) (all_loaded s.theories.items) (all_refused s.refused.items) s.files) }
    ensures named { IfOk result (λ s. AreNames (all_loaded s.theories.items) s.names) }
    ensures session { IfOk result (λ s. IfSome (L.files library.old) (λ files. IsShownSession files s.names (all_loaded s.theories.items) (all_refused s.refused.items) s.files)) }
    ensures fault { result ≡ Err LoadFault.ReadFault → Rose (L.faults library.old) (L.faults library.new) }
    ensures files { L.files library.new ≡ L.files library.old }
    ensures later { L.faults library.old ≤ L.faults library.new }
{
    let number = in_room(alloc, number);
    let Theories {
        loaded,
        refused,
        files,
    } = load_theories(rt, alloc, library, threads, number)?;
    match names_of(threads, alloc, number, loaded.as_slice()) {
        Ok(names) => Ok(Session {
            names,
            theories: loaded,
            refused,
            files,
        }),
        Err(_) => Err(LoadFault::Memory),
    }
}

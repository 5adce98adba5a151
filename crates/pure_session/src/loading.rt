//! The theories of a library.
ghost use Rattle.std.specs.Prelude.{◌≡◌, ◌≤◌, length, IfOk};
ghost use Rattle.std.specs.List.Sorted.{IsStrictlySortedBy};
ghost use Rattle.std.specs.Ordering.{nat_cmp};
ghost use Rattle.std.specs.Cmp.Lexicographic.{slice_cmp};
ghost use Rattle.pure_io.specs.Outside.{Rose};
ghost use Rattle.pure_session.specs.ImportGraph.{theories};
ghost use Rattle.pure_session.specs.Loading.{AreLoadedFrom};
ghost use Rattle.pure_session.specs.Refused.{all_refused};
ghost use Rattle.pure_graph.specs.Seen.{seen_files};
ghost use Rattle.pure_session.specs.ToldTheories.{AreTheoriesOf};
ghost use Rattle.pure_session.specs.Waiting.{all_loaded};

use crate::imports::link;
use crate::judge::judge;
use crate::order::{Loaded, load_order};
use crate::reason::{RefusedFile, refused_files};
use pure_graph::{LoadFault, TheoryFile, read_files};
use pure_io::Library;
use std::alloc::{AllocError, Global};
use std::rt::Files;
use std::thread::Threads;

/// The theories of a library: those that are loaded, in load order, the files that are refused, in byte order of their
/// names, and the number of all files.
#[derive(Drop)]
pub struct Theories {
    pub loaded: Vec<Loaded>,
    pub refused: Vec<RefusedFile>,
    pub files: u32,
}

/// The number of files: never more than the number can say, unless memory fails.
fn count(files: &[TheoryFile]) -> Result<u32, AllocError>
    ensures { IfOk result (λ n. n ≡ length files.now) }
{
    match u32::try_from(files.len()) {
        Ok(n) => Ok(n),
        Err(_) => Err(AllocError),
    }
}

/// The theories of files that were read.
fn loaded_from(alloc: Global, files: Vec<TheoryFile>) -> Result<Theories, AllocError>
    requires { IsStrictlySortedBy (slice_cmp nat_cmp) (theories (seen_files files.items)) }
    ensures { IfOk result (λ t. AreLoadedFrom (seen_files files.items) (all_loaded t.loaded.items) (all_refused t.refused.items) t.files) }
{
    let number = count(files.as_slice())?;
    let linked = link(alloc, files)?;
    let judged = judge(alloc, linked)?;
    let refused = refused_files(alloc, judged.as_slice())?;
    let loaded = load_order(alloc, judged)?;
    Ok(Theories {
        loaded,
        refused,
        files: number,
    })
}

/// The theories of a library. At most one byte more than a file may have is read of each, and nothing of those behind the
/// first 256. What they say by themselves is found in so many threads at most.
pub fn load_theories<R: Files + Print + AllocGlobal, T: Threads + Sync, L: Library>(
    rt: &R,
    alloc: Global,
    library: &mut L,
    threads: &T,
    number: usize,
) -> Result<Theories, LoadFault>
    ensures told { IfOk result (λ t. AreTheoriesOf (L.files library.old) (all_loaded t.loaded.items) (all_refused t.refused.items) t.files) }
    ensures fault { result ≡ Err LoadFault.ReadFault → Rose (L.faults library.old) (L.faults library.new) }
    ensures files { L.files library.new ≡ L.files library.old }
    ensures later { L.faults library.old ≤ L.faults library.new }
{
    let files = read_files(rt, alloc, library, threads, number)?;
    match loaded_from(alloc, files) {
        Ok(theories) => Ok(theories),
        Err(_) => Err(LoadFault::Memory),
    }
}

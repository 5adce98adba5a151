//! Libraries and sinks in memory, and what the top call answers with them.
use crate::files::copies;
use crate::words::words_of;
use pure_check::{Ended, Status, pure};
use pure_io::{File, Gate, Library, MemLibrary, MemSink};
use std::alloc::{AllocError, Global};
use std::mem;
use std::rt::Files;
use std::sync::Wait;
use std::thread::Threads;

/// What a call answered and wrote, and whether it handed out the board on which it checked.
#[derive(Drop)]
pub(crate) struct Answer {
    pub(crate) status: Status,
    pub(crate) has_board: bool,
    pub(crate) bytes: Vec<u8>,
}

/// The world of a call: its files, which calls of library and sink fail, and how much the sink takes, in all and at once.
#[derive(Clone, Copy)]
pub(crate) struct World<'w> {
    pub(crate) files: &'w [File],
    pub(crate) failing_reads: &'w [u32],
    pub(crate) failing_writes: &'w [u32],
    pub(crate) capacity: usize,
    pub(crate) width: usize,
}

impl<'w> World<'w> {
    /// The world with these files in which nothing fails, with room for every table but the largest.
    pub(crate) fn of_files(files: &'w [File]) -> World<'w> {
        World {
            files,
            failing_reads: &[],
            failing_writes: &[],
            capacity: 100_000,
            width: 100_000,
        }
    }
}

/// The library of the world.
fn library_of(alloc: Global, world: World) -> Result<MemLibrary, AllocError> {
    let failing = Vec::from_slice(alloc, world.failing_reads)?;
    let files = copies(alloc, world.files)?;
    Ok(MemLibrary::make(files, failing))
}

/// Its sink, to which nothing was written.
pub(crate) fn sink_of(alloc: Global, world: World) -> Result<MemSink, AllocError> {
    let failing = Vec::from_slice(alloc, world.failing_writes)?;
    MemSink::make(alloc, world.capacity, world.width.max(1), failing)
}

/// The status, and whether there is a board. The board is let go of here alone, and left as it is: to take it apart would have all that it holds proved once more.
fn told(ended: Ended) -> (Status, bool) {
    let status = ended.status;
    let has_board = ended.run.is_some();
    mem::forget(ended);
    (status, has_board)
}

/// The status of a call with the words of the line, and whether there is a board.
fn called<R: Files + Print + AllocGlobal + Threads + Wait + Sync, L: Library, G: Gate>(
    rt: &R,
    alloc: Global,
    line: &[u8],
    library: &mut L,
    out: &mut MemSink,
    gate: &G,
) -> Result<(Status, bool), AllocError> {
    let words = words_of(alloc, line)?;
    Ok(told(pure(rt, alloc, &words, library, out, gate)))
}

/// What a call with the words of the line answers, and writes to the world's sink.
pub(crate) fn call<R: Files + Print + AllocGlobal + Threads + Wait + Sync, L: Library, G: Gate>(
    rt: &R,
    alloc: Global,
    world: World,
    line: &[u8],
    library: &mut L,
    gate: &G,
) -> Result<Answer, AllocError> {
    let mut out = sink_of(alloc, world)?;
    let (status, has_board) = called(rt, alloc, line, library, &mut out, gate)?;
    Ok(Answer {
        status,
        has_board,
        bytes: Vec::from_slice(alloc, out.bytes())?,
    })
}

/// What a call in the world, with the words of the line and through this gate, answers and writes.
pub(crate) fn run<R: Files + Print + AllocGlobal + Threads + Wait + Sync, G: Gate>(
    rt: &R,
    alloc: Global,
    world: World,
    line: &[u8],
    gate: &G,
) -> Result<Answer, AllocError> {
    let mut library = library_of(alloc, world)?;
    call(rt, alloc, world, line, &mut library, gate)
}

//! Races: workers that try the attempts of their lanes at once.
ghost use Rattle.std.specs.Prelude.{◌≡◌, ◌<◌, ◌≤◌, IfOk, length};
ghost use Rattle.pure_text.specs.Lists.{EachTwo};
ghost use Rattle.pure_race.specs.Least.{IsLeastWin};
ghost use Rattle.pure_race.specs.Lanes.{AreEnds, IsBound, IsEnd, IsEnded};

use crate::attempts::Attempts;
use crate::lanes::{End, Lane, ends_of, fresh_lanes, lesser, settle_lane, try_lane};
use crate::wins::Wins;
use pure_threads::{Becomes, work_on_each};
use std::alloc::{AllocError, Global};
use std::snapshot::Snapshot;
use std::sync::Wait;
use std::thread::Threads;

/// Tries the attempts of a lane; how that ended.
fn serve<A: Attempts>(alloc: Global, attempts: &A, wins: &Wins, width: u32, lane: usize) -> End
    requires { 0 < width }
    ensures { IsEnd (A.wins attempts.now) (A.many attempts.now) width lane result }
{
    match try_lane(alloc, attempts, wins, width, lane) {
        Ok(end) => end,
        Err(_) => End::Lacking,
    }
}

/// The bytes of a worker's stack: what the deepest legal terms need several times over, whatever the shell's limit says.
const STACK: usize = 16 << 20;

/// A lane comes back with its end.
#[derive(Drop)]
struct Ending<A: Attempts> {
    attempts: Snapshot<A>,
    width: u32,
}

impl<A: Attempts> Becomes<Lane> for Ending<A> {
    ghost use Rattle.pure_race.specs.Lanes.{IsEnded};

    ghost becomes = { λ how old new. IsEnded (A.wins how.attempts.value) (A.many how.attempts.value) how.width old new };
}

/// Tries the attempts of all lanes: of the first in the caller's thread, of each other in a thread of its own where there is room
/// for one.
fn run<R: Threads + Wait + Sync, A: Attempts>(
    rt: &R,
    alloc: Global,
    attempts: &A,
    wins: &Wins,
    width: u32,
    lanes: Vec<Lane>,
) -> Result<Vec<Lane>, AllocError>
    requires { 0 < width }
    ensures { IfOk result (λ ended. EachTwo (IsEnded (A.wins attempts.now) (A.many attempts.now) width) lanes.items ended.items) }
{
    let ending = Ending {
        attempts: Snapshot::of(attempts),
        width,
    };
    let worker = |_place: usize, lane: &mut Lane|
        requires { 0 < width }
        ensures { IsEnded (A.wins attempts.entry.now) (A.many attempts.entry.now) width lane.entry.now lane.exit.now }
    { lane.end = serve(alloc, attempts, wins, width, lane.first) };
    work_on_each(rt, alloc, STACK, &ending, &worker, lanes)
}

/// The least attempt that a lane found to win, or how many there are.
fn least_won<A: Attempts>(attempts: &A, width: u32, ends: &[End]) -> u32
    requires { AreEnds (A.wins attempts.now) (A.many attempts.now) width ends.now }
    ensures { IsBound (A.wins attempts.now) (A.many attempts.now) result }
{
    let _ = width;
    let mut least = attempts.count();
    for end in ends {
        if let End::Won { number } = *end {
            least = lesser(least, number);
        }
    }
    least
}

/// The least attempt that wins, from how the lanes ended.
fn settle<A: Attempts>(attempts: &A, width: u32, ends: &[End]) -> Result<Option<u32>, AllocError>
    requires width { (0 < width) × (length ends.now ≡ width) }
    requires ended { AreEnds (A.wins attempts.now) (A.many attempts.now) width ends.now }
    ensures { IfOk result (IsLeastWin (A.wins attempts.now) (A.many attempts.now)) }
{
    let mut bound = least_won(attempts, width, ends);
    for (lane, end) in ends.iter().enumerate() {
        bound = settle_lane(attempts, width, lane, *end, bound)?;
    }
    if bound < attempts.count() {
        Ok(Some(bound))
    } else {
        Ok(None)
    }
}

/// The ends of all lanes.
fn run_all<R: Threads + Wait + Sync, A: Attempts>(
    rt: &R,
    alloc: Global,
    attempts: &A,
    width: u32,
) -> Result<Vec<End>, AllocError>
    requires { 0 < width }
    ensures { IfOk result (λ ends. (length ends.items ≡ width) × AreEnds (A.wins attempts.now) (A.many attempts.now) width ends.items) }
{
    let wins = Wins::none(alloc, width)?;
    let lanes = fresh_lanes(alloc, width)?;
    let ended = run(rt, alloc, attempts, &wins, width, lanes)?;
    let ends = ends_of(alloc, ended.as_slice())?;
    Ok(ends)
}

/// The least attempt that wins, none exactly where none does, whatever the schedule of the workers. Each worker tries the
/// attempts of its lane in their order, all but the first in a thread of its own where there is room for one; before each step it
/// looks whether a lesser attempt is known to win, and then leaves the rest. It waits for the threads that it starts, and so may wait
/// for ever.
///
/// # Errors
///
/// Want of memory alone.
pub fn race<R: Threads + Wait + Sync, A: Attempts>(
    rt: &R,
    alloc: Global,
    attempts: &A,
    workers: u32,
) -> Result<Option<u32>, AllocError>
    requires some { 0 < workers }
    requires few { workers ≤ 64 }
    ensures { IfOk result (IsLeastWin (A.wins attempts.now) (A.many attempts.now)) }
{
    let count = attempts.count();
    if count == 0 {
        return Ok(None);
    }
    let width = workers.min(count);
    let ends = run_all(rt, alloc, attempts, width)?;
    settle(attempts, width, ends.as_slice())
}

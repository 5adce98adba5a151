//! Workers, one for each seat.
ghost use Rattle.std.specs.Prelude.{◌≡◌, [], IfErr, IfOk, ℕ};
ghost use Rattle.pure_text.specs.Lists.{Each, EachTwo};
ghost use Rattle.pure_board.specs.Taken.{IsGoalOf, state_seen};
ghost use Rattle.pure_pool.specs.Held.{Nothing, Proof};
ghost use Rattle.pure_pool.specs.Seated.{Has, HasSome, IsSameSeat, IsServedBy};
ghost use Rattle.pure_pool.specs.Ends.{IsCourse};

use crate::cancellations::Cancellations;
use crate::proof_runs::{End, run_proof};
use crate::rest::Rest;
use crate::theory_runs::run_theory;
use crossbeam_utils::Backoff;
use pure_board::{Board, Seat};
use pure_core::{Task, Work};
use pure_io::Gate;
use pure_threads::{Becomes, work_on_each};
use std::alloc::{AllocError, Global};
use std::sync::Wait;
use std::thread::Threads;

/// What came of a turn of a worker: it has worked, found nothing to do now, or found all finished or stopped.
#[derive(Clone, Copy)]
pub(crate) enum Course {
    Worked,
    Idle,
    Over,
}

/// Runs a proof that was taken, between the calls of the gate.
fn pass_gate<R: Threads + Wait, W: Work, G: Gate>(
    rt: &R,
    board: &Board<W>,
    work: &W,
    gate: &G,
    cancellations: &Cancellations,
    seat: &mut Seat<W>,
    number: u32,
    goal: &W::Goal,
) -> Result<Course, AllocError>
    requires board { seat.old.plan ≡ board.now }
    requires session { board.now.session ≡ work.now }
    requires holds { Has W.forks W.closes W.may W.faults seat.old (Proof number) }
    requires goal { IsGoalOf (state_seen seat.old) number goal.now }
    requires forked { (i : ℕ) × (k : ℕ) × (command : ℕ) × W.forks work.now i k command goal.now }
    ensures seat { IsSameSeat seat.old seat.new }
    ensures course { IfOk result (λ course. IsCourse W.forks W.closes W.may W.faults seat.new course) }
    ensures err { IfErr result (λ _. HasSome W.forks W.closes W.may W.faults seat.new) }
{
    gate.enter(rt, number);
    match run_proof(rt, board, work, cancellations, seat, number, goal)? {
        End::Delivered => {
            gate.left(rt, number);
            Ok(Course::Worked)
        }
        End::Cancelled => Ok(Course::Worked),
        End::Stopped => Ok(Course::Over),
    }
}

/// Takes what is there to do, and does it.
fn turn<R: Threads + Wait, W: Work, G: Gate>(
    rt: &R,
    board: &Board<W>,
    work: &W,
    gate: &G,
    rest: &Rest,
    cancellations: &Cancellations,
    seat: &mut Seat<W>,
) -> Result<Course, AllocError>
    requires board { seat.old.plan ≡ board.now }
    requires session { board.now.session ≡ work.now }
    requires free { Has W.forks W.closes W.may W.faults seat.old Nothing }
    ensures seat { IsSameSeat seat.old seat.new }
    ensures course { IfOk result (λ course. IsCourse W.forks W.closes W.may W.faults seat.new course) }
    ensures err { IfErr result (λ _. HasSome W.forks W.closes W.may W.faults seat.new) }
{
    match board.take(rt, seat)? {
        Task::Theory { index, parents } => {
            run_theory(rt, board, work, rest, seat, index, parents.as_slice())?;
            Ok(Course::Worked)
        }
        Task::Proof { number, goal } => {
            pass_gate(rt, board, work, gate, cancellations, seat, number, &goal)
        }
        Task::Idle => Ok(Course::Idle),
        Task::Finished => Ok(Course::Over),
        Task::Stopped => Ok(Course::Over),
    }
}

/// Works until all is finished or stopped. Where memory is wanted the worker stops the work.
fn serve<R: Threads + Wait, W: Work, G: Gate>(
    rt: &R,
    board: &Board<W>,
    work: &W,
    gate: &G,
    rest: &Rest,
    cancellations: &Cancellations,
    seat: &mut Seat<W>,
)
    requires board { seat.old.plan ≡ board.now }
    requires session { board.now.session ≡ work.now }
    requires free { Has W.forks W.closes W.may W.faults seat.old Nothing }
    ensures { IsServedBy seat.old seat.new }
{
    let backoff = Backoff::new();
    for _ in rt.forever() {
        let changes = rest.changes();
        match turn(rt, board, work, gate, rest, cancellations, seat) {
            Ok(Course::Worked) => backoff.reset(),
            Ok(Course::Idle) => wait(rt, rest, &backoff, changes),
            Ok(Course::Over) => {
                rest.wake_all();
                return;
            }
            Err(_) => {
                board.stop(rt, seat);
                cancellations.tell_stop();
                rest.wake_all();
                return;
            }
        }
    }
    unreachable!()
}

/// Works so at a seat that has entered nothing yet.
fn serve_fresh<R: Threads + Wait, W: Work, G: Gate>(
    rt: &R,
    board: &Board<W>,
    work: &W,
    gate: &G,
    rest: &Rest,
    cancellations: &Cancellations,
    seat: &mut Seat<W>,
)
    requires board { seat.old.plan ≡ board.now }
    requires session { board.now.session ≡ work.now }
    requires fresh { seat.old.own ≡ [] }
    ensures { IsServedBy seat.old seat.new }
{
    seat.known();
    serve(rt, board, work, gate, rest, cancellations, seat);
}

/// Waits a little; after some times until something was changed since this count.
fn wait<R: Wait>(rt: &R, rest: &Rest, backoff: &Backoff, changes: u32) {
    if backoff.is_completed() {
        rest.sleep(rt, changes);
    } else {
        backoff.snooze();
    }
}

/// The bytes of a worker's stack: what the deepest legal terms need several times over, whatever the shell's limit says.
const STACK: usize = 16 << 20;

/// A seat comes back served to the end.
#[derive(Clone, Copy)]
struct Serving;

impl<W: Work> Becomes<Seat<W>> for Serving {
    ghost becomes = { λ _ old new. IsServedBy old new };
}

/// Runs one worker for each seat: that of the first in the caller's thread, each other in a thread of its own where there is
/// room for one. A worker takes what is there to do and does it, with the board's leave before each step of a proof, until all is
/// finished or stopped; where memory is wanted it stops the work. The gate is entered before a proof is begun, and left after its
/// outcome was delivered. It may wait for ever.
///
/// # Errors
///
/// Want of memory for the list of seats.
pub fn run<R: Threads + Wait + Sync, W: Work, G: Gate>(
    rt: &R,
    alloc: Global,
    board: &Board<W>,
    work: &W,
    gate: &G,
    seats: Vec<Seat<W>>,
) -> Result<Vec<Seat<W>>, AllocError>
    requires seats { Each (λ seat. (seat.plan ≡ board.now) × (seat.own ≡ [])) seats.items }
    requires session { board.now.session ≡ work.now }
    ensures { IfOk result (λ served. EachTwo IsServedBy seats.items served.items) }
{
    let rest = Rest::new();
    let cancellations = Cancellations::new();
    let worker = |_place: usize, seat: &mut Seat<W>|
        requires { (seat.now.plan ≡ board.now) × (board.now.session ≡ work.now) × (seat.now.own ≡ []) }
        ensures { IsServedBy seat.entry.now seat.exit.now }
    { serve_fresh(rt, board, work, gate, &rest, &cancellations, seat) };
    work_on_each(rt, alloc, STACK, &Serving, &worker, seats)
}

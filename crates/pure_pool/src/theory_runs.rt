//! A theory that a worker runs, from its take until it is closed.
ghost use Rattle.std.specs.Prelude.{◌≡◌, ℕ, List, IfErr, MatchBool, IfOk, Some};
ghost use Rattle.pure_text.specs.Lists.{EachTwo};
ghost use Rattle.pure_machine.specs.State.{parents_at};
ghost use Rattle.pure_core_runs.specs.Seats.{forks_in};
ghost use Rattle.pure_pool.specs.Held.{Held, Nothing, Theory};
ghost use Rattle.pure_pool.specs.Seated.{Has, HasSome, IsSameSeat};

use crate::rest::Rest;
use pure_board::{Board, Seat};
use pure_core::{Turn, Work};
use std::alloc::AllocError;
use std::sync::{Arc, Wait};

/// One turn of a theory's run; whether it closed the theory.
fn take_turn<R: Wait, W: Work>(
    rt: &R,
    board: &Board<W>,
    work: &W,
    rest: &Rest,
    seat: &mut Seat<W>,
    run: &mut W::Run,
    theory: u32,
) -> Result<bool, AllocError>
    requires board { seat.old.plan ≡ board.now }
    requires session { board.now.session ≡ work.now }
    requires holds { Has W.forks W.closes W.may W.faults seat.old (Theory theory) }
    requires runs { W.runs work.now theory (forks_in theory seat.old.own) run.old }
    ensures seat { IsSameSeat seat.old seat.new }
    ensures holds { IfOk result (λ closed. MatchBool closed (Has W.forks W.closes W.may W.faults seat.new Nothing)
        (Has W.forks W.closes W.may W.faults seat.new (Theory theory) × W.runs work.now theory (forks_in theory seat.new.own) run.new)) }
    ensures err { IfErr result (λ _. HasSome W.forks W.closes W.may W.faults seat.new) }
{
    match work.command(run)? {
        Turn::Declared => Ok(false),
        Turn::Forked { command, goal } => {
            board.fork(rt, seat, theory, command, goal)?;
            rest.wake_one();
            Ok(false)
        }
        Turn::Closed { closed } => {
            board.close_theory(rt, seat, theory, closed)?;
            rest.wake_all();
            Ok(true)
        }
    }
}

/// Runs a theory that was taken until it is closed.
pub(crate) fn run_theory<R: Wait, W: Work>(
    rt: &R,
    board: &Board<W>,
    work: &W,
    rest: &Rest,
    seat: &mut Seat<W>,
    theory: u32,
    parents: &[Arc<W::Closed>],
) -> Result<(), AllocError>
    requires board { seat.old.plan ≡ board.now }
    requires session { board.now.session ≡ work.now }
    requires holds { Has W.forks W.closes W.may W.faults seat.old (Theory theory) }
    requires unforked { forks_in theory seat.old.own ≡ 0 }
    requires parents { (numbers : List ℕ) × (parents_at (W.shape work.now) theory ≡ Some numbers) × EachTwo (λ i c. (n : ℕ) × W.closes work.now i n c.value) numbers parents.now }
    ensures seat { IsSameSeat seat.old seat.new }
    ensures holds { IfOk result (λ _. Has W.forks W.closes W.may W.faults seat.new Nothing) }
    ensures err { IfErr result (λ _. HasSome W.forks W.closes W.may W.faults seat.new) }
{
    let mut run = work.begin(theory, parents)?;
    for _ in 0..u64::MAX {
        if take_turn(rt, board, work, rest, seat, &mut run, theory)? {
            return Ok(());
        }
    }
    Err(AllocError)
}

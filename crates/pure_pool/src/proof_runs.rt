//! A proof that a worker runs, from its take until its outcome is delivered or it is found cancelled.
ghost use Rattle.std.specs.Prelude.{◌≡◌, ℕ, IfErr, IfOk, MatchOption, true};
ghost use Rattle.pure_board.specs.Taken.{IsGoalOf, state_seen};
ghost use Rattle.pure_pool.specs.Held.{Nothing, Proof};
ghost use Rattle.pure_pool.specs.Seated.{Has, HasSome, IsSameSeat};
ghost use Rattle.pure_pool.specs.Ends.{IsEnd};

use crate::cancellations::Cancellations;
use pure_board::{Board, Seat};
use pure_core::{Polled, Work};
use std::alloc::AllocError;
use std::sync::Wait;

/// How a proof ended: its outcome was delivered, its promise was found cancelled, or the work was found stopped.
#[derive(Clone, Copy)]
pub(crate) enum End {
    Delivered,
    Cancelled,
    Stopped,
}

/// One step of a proof, begun while so many groups were known to be cancelled. Where it breaks off since more are, the proof is
/// begun again: nothing is known of it then.
fn step<W: Work>(
    work: &W,
    cancellations: &Cancellations,
    known: u64,
    goal: &W::Goal,
    proving: &mut W::Proving,
) -> Result<Option<W::Outcome>, AllocError>
    requires forked { (i : ℕ) × (k : ℕ) × (command : ℕ) × W.forks work.now i k command goal.now }
    requires proves { W.proves work.now goal.now proving.old }
    ensures { IfOk result (λ outcome. MatchOption outcome (W.proves work.now goal.now proving.new) (λ o. W.may work.now goal.now o)) }
{
    match work.advance(goal, proving, &cancellations.until_more(known)) {
        Ok(outcome) => Ok(outcome),
        Err(error) => {
            if cancellations.known() == known {
                return Err(error);
            }
            *proving = work.start(goal)?;
            Ok(None)
        }
    }
}

/// One step of a proof, with the board's leave; how it ended, if it did.
fn advance<R: Wait, W: Work>(
    rt: &R,
    board: &Board<W>,
    work: &W,
    cancellations: &Cancellations,
    seat: &mut Seat<W>,
    number: u32,
    goal: &W::Goal,
    proving: &mut W::Proving,
) -> Result<Option<End>, AllocError>
    requires board { seat.old.plan ≡ board.now }
    requires session { board.now.session ≡ work.now }
    requires holds { Has W.forks W.closes W.may W.faults seat.old (Proof number) }
    requires goal { IsGoalOf (state_seen seat.old) number goal.now }
    requires forked { (i : ℕ) × (k : ℕ) × (command : ℕ) × W.forks work.now i k command goal.now }
    requires proves { W.proves work.now goal.now proving.old }
    ensures seat { IsSameSeat seat.old seat.new }
    ensures ended { IfOk result (λ end. MatchOption end
        (Has W.forks W.closes W.may W.faults seat.new (Proof number) × IsGoalOf (state_seen seat.new) number goal.now × W.proves work.now goal.now proving.new)
        (λ e. IsEnd W.forks W.closes W.may W.faults seat.new e)) }
    ensures err { IfErr result (λ _. HasSome W.forks W.closes W.may W.faults seat.new) }
{
    let known = cancellations.known();
    match board.poll(rt, seat, number) {
        Polled::Go => {}
        Polled::Cancelled => return Ok(Some(End::Cancelled)),
        Polled::Stopped => return Ok(Some(End::Stopped)),
    }
    let Some(outcome) = step(work, cancellations, known, goal, proving)? else {
        return Ok(None);
    };
    let fault = work.is_fault(&outcome);
    board.deliver(rt, seat, number, outcome, fault)?;
    cancellations.tell(board.cancellations(rt, seat) as u64);
    Ok(Some(End::Delivered))
}

/// Runs a proof that was taken, with the board's leave before each step.
pub(crate) fn run_proof<R: Wait, W: Work>(
    rt: &R,
    board: &Board<W>,
    work: &W,
    cancellations: &Cancellations,
    seat: &mut Seat<W>,
    number: u32,
    goal: &W::Goal,
) -> Result<End, AllocError>
    requires board { seat.old.plan ≡ board.now }
    requires session { board.now.session ≡ work.now }
    requires holds { Has W.forks W.closes W.may W.faults seat.old (Proof number) }
    requires goal { IsGoalOf (state_seen seat.old) number goal.now }
    requires forked { (i : ℕ) × (k : ℕ) × (command : ℕ) × W.forks work.now i k command goal.now }
    ensures seat { IsSameSeat seat.old seat.new }
    ensures ended { IfOk result (λ end. IsEnd W.forks W.closes W.may W.faults seat.new end) }
    ensures err { IfErr result (λ _. HasSome W.forks W.closes W.may W.faults seat.new) }
{
    let mut proving = work.start(goal)?;
    for _ in 0..u64::MAX {
        if let Some(end) = advance(
            rt,
            board,
            work,
            cancellations,
            seat,
            number,
            goal,
            &mut proving,
        )? {
            return Ok(end);
        }
    }
    Err(AllocError)
}

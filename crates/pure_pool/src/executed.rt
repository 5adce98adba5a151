//! Works on boards, from the opening to the close.
ghost use Rattle.std.specs.Prelude.{◌≡◌, ◌<◌, ◌-◌, ◌^◌, false, vec_len, IfOk, OnOk};
ghost use Rattle.pure_machine.specs.Step.{IsShape};
ghost use Rattle.pure_board.specs.Boards.{AreOpened, IsEnded};
ghost use Rattle.pure_machine.specs.Policy.{Opening};
ghost use Rattle.pure_pool.specs.Executed.{IsExecuted};
ghost use Rattle.pure_pool.specs.Seated.{AreBack};

use crate::workers::run;
use pure_board::{Board, Closed, Opened, Seat};
use pure_core::{Node, Policy, Work};
use pure_io::Gate;
use std::alloc::{AllocError, Global};
use std::sync::Wait;
use std::thread::Threads;

/// Lets go of a board on which the work was stopped.
fn refused<W: Work>(_closed: Closed<W>) -> Result<Closed<W>, AllocError>
    ensures { OnOk result ⊥ }
{
    Err(AllocError)
}

/// The closed board, if the work wasn't stopped.
fn ended<W: Work>(closed: Closed<W>) -> Result<Closed<W>, AllocError>
    ensures same { IfOk result (λ c. c ≡ closed) }
    ensures goes_on { IfOk result (λ c. (c.core).stopped ≡ false) }
{
    if closed.core().stopped() {
        refused(closed)
    } else {
        Ok(closed)
    }
}

/// Lets go of a board whose seats didn't come back.
fn unserved<W: Work>(_board: Board<W>, error: AllocError) -> Result<Closed<W>, AllocError>
    ensures { OnOk result ⊥ }
{
    Err(error)
}

/// Closes a board to which its seats came back, if the work wasn't stopped.
fn closed_with<W: Work>(board: Board<W>, seats: Vec<Seat<W>>) -> Result<Closed<W>, AllocError>
    requires back { (o : Opening) × AreBack board o seats.items }
    ensures session { IfOk result (λ closed. closed.session ≡ board.session) }
    ensures ended { IfOk result (IsEnded W.shape W.forks W.closes W.may W.faults) }
    ensures executed { (o : Opening) → AreBack board o seats.items → IfOk result (λ closed. (closed.opening ≡ o) × IsExecuted closed) }
{
    let closed = board.close(seats);
    ended(closed)
}

/// The same where the seats may not have come back.
fn closed_by<W: Work>(
    board: Board<W>,
    served: Result<Vec<Seat<W>>, AllocError>,
) -> Result<Closed<W>, AllocError>
    requires back { IfOk served (λ seats. (o : Opening) × AreBack board o seats.items) }
    ensures session { IfOk result (λ closed. closed.session ≡ board.session) }
    ensures ended { IfOk result (IsEnded W.shape W.forks W.closes W.may W.faults) }
    ensures executed { (o : Opening) → IfOk served (λ seats. AreBack board o seats.items) → IfOk result (λ closed. (closed.opening ≡ o) × IsExecuted closed) }
{
    match served {
        Err(error) => unserved(board, error),
        Ok(seats) => closed_with(board, seats),
    }
}

/// Has the workers of a board that was opened for the work run it to its end, and closes the board.
fn run_opened<R: Threads + Wait + Sync, W: Work, G: Gate>(
    rt: &R,
    alloc: Global,
    opened: Opened<W>,
    work: &W,
    gate: &G,
) -> Result<Closed<W>, AllocError>
    requires session { opened.board.session ≡ work.now }
    requires seats { (o : Opening) × (0 < o.workers) × AreOpened opened.board o opened.seats.items }
    ensures session { IfOk result (λ closed. closed.session ≡ opened.board.session) }
    ensures ended { IfOk result (IsEnded W.shape W.forks W.closes W.may W.faults) }
    ensures executed { (o : Opening) → 0 < o.workers → AreOpened opened.board o opened.seats.items → IfOk result (λ closed. (closed.opening ≡ o) × IsExecuted closed) }
{
    let Opened { board, seats } = opened;
    let served = run(rt, alloc, &board, work, gate, seats);
    closed_by(board, served)
}

/// Opens a board for the work with this shape and policy, has so many workers run it to its end, and closes the board
/// (Wenzel, Parallel Proof Checking in Isabelle/Isar, 2009). The gate is entered before each proof and left after its
/// outcome was delivered. It may wait for ever.
///
/// # Errors
///
/// Want of memory alone.
pub fn execute<R: Threads + Wait + Sync, W: Work, G: Gate>(
    rt: &R,
    alloc: Global,
    work: &W,
    shape: Vec<Node>,
    policy: Policy,
    workers: u32,
    gate: &G,
) -> Result<Closed<W>, AllocError>
    requires session { shape.items ≡ W.shape work.now }
    requires formed { IsShape shape.items }
    requires few { vec_len shape < 2 ^ 32 - 1 }
    requires some { 0 < workers }
    ensures session { IfOk result (λ closed. closed.session ≡ work.now) }
    ensures opening { IfOk result (λ closed. closed.opening ≡ record { shape = shape.items; policy = policy; workers = workers }) }
    ensures ended { IfOk result (IsEnded W.shape W.forks W.closes W.may W.faults) }
    ensures executed { IfOk result IsExecuted }
{
    let opened = Board::open(alloc, work, shape, policy, workers)?;
    run_opened(rt, alloc, opened, work, gate)
}

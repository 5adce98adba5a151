//! Boards that are opened, run by the pool, and closed.
ghost use Rattle.std.specs.Prelude.{◌≡◌, ◌<◌, ◌-◌, ◌^◌, vec_len, IfOk, OnOk};
ghost use Rattle.pure_text.specs.Lists.{Each};
ghost use Rattle.pure_machine.specs.Policy.{Opening};
ghost use Rattle.pure_machine.specs.Step.{IsShape};
ghost use Rattle.pure_board.specs.Boards.{AreAll, AreOpened};
ghost use Rattle.pure_pool.specs.Seated.{AreBack};
ghost use Rattle.pure_plays.specs.Seen.{BeginAlike};

use crate::acts::Acts;
use crate::searches::Searches;
use pure_board::{Board, Closed, Opened, Seat};
use pure_core::{Node, Policy, Work};
use pure_io::{Gate, OpenGate};
use pure_trials::{Session, shape_of};
use std::alloc::{AllocError, Global};
use std::sync::Wait;
use std::thread::Threads;

/// Closes a board, to which all its seats are given back: of what two of them saw the longer begins with the shorter.
pub(crate) fn close<W: Work>(board: Board<W>, seats: Vec<Seat<W>>) -> Closed<W>
    requires board { Each (λ s. s.plan ≡ board) seats.items }
    requires opened { (o : Opening) × (0 < o.workers) × Each (λ s. s.opening ≡ o) seats.items × AreAll o.workers seats.items }
    ensures session { result.session ≡ board.session }
    ensures seen { BeginAlike seats.items }
{
    board.close(seats)
}

/// Lets go of a board whose seats didn't come back.
fn unserved<W: Work>(_board: Board<W>, error: AllocError) -> Result<Closed<W>, AllocError>
    ensures { OnOk result ⊥ }
{
    Err(error)
}

/// Closes a board to which its seats came back.
fn close_back<W: Work>(board: Board<W>, seats: Vec<Seat<W>>) -> Closed<W>
    requires back { (o : Opening) × AreBack board o seats.items }
    ensures session { result.session ≡ board.session }
{
    close(board, seats)
}

/// The same where the seats may not have come back.
fn closed_by<W: Work>(
    board: Board<W>,
    served: Result<Vec<Seat<W>>, AllocError>,
) -> Result<Closed<W>, AllocError>
    requires back { IfOk served (λ seats. (o : Opening) × AreBack board o seats.items) }
    ensures session { IfOk result (λ closed. closed.session ≡ board.session) }
{
    match served {
        Err(error) => unserved(board, error),
        Ok(seats) => Ok(close_back(board, seats)),
    }
}

/// Has the workers of the pool run the board that was opened for the work, and closes it at the end.
fn run_opened<R: Threads + Wait + Sync, W: Work, G: Gate>(
    rt: &R,
    alloc: Global,
    opened: Opened<W>,
    work: &W,
    gate: &G,
) -> Result<Closed<W>, AllocError>
    requires session { opened.board.session ≡ work.now }
    requires seats { (o : Opening) × (0 < o.workers) × AreOpened opened.board o opened.seats.items }
    ensures session { IfOk result (λ closed. closed.session ≡ opened.board.session) }
{
    let Opened { board, seats } = opened;
    let served = pure_pool::run(rt, alloc, &board, work, gate, seats);
    closed_by(board, served)
}

/// The work, run by so many workers of the pool on a board that is opened so and closed at the end.
///
/// # Errors
///
/// Want of memory at the opening, or for the seats as they come back.
pub fn run_closed<R: Threads + Wait + Sync, W: Work, G: Gate>(
    rt: &R,
    alloc: Global,
    work: &W,
    shape: Vec<Node>,
    policy: Policy,
    workers: u32,
    gate: &G,
) -> Result<Closed<W>, AllocError>
    requires session { shape.items ≡ W.shape work.now }
    requires formed { IsShape shape.items }
    requires few { vec_len shape < 2 ^ 32 - 1 }
    requires some { 0 < workers }
    ensures { IfOk result (λ closed. closed.session ≡ work.now) }
{
    let opened = Board::open(alloc, work, shape, policy, workers)?;
    run_opened(rt, alloc, opened, work, gate)
}

/// The session, run so.
///
/// # Errors
///
/// Want of memory at the opening, and a session that is none.
pub fn run_session<R: Threads + Wait + Sync, G: Gate>(
    rt: &R,
    alloc: Global,
    session: &Session,
    policy: Policy,
    workers: u32,
    gate: &G,
) -> Result<Closed<Session>, AllocError>
    requires some { 0 < workers }
    ensures { IfOk result (λ closed. closed.session ≡ session.now) }
{
    let shape = shape_of(alloc, session)?;
    run_closed(rt, alloc, session, shape, policy, workers, gate)
}

/// The searches, run so.
///
/// # Errors
///
/// Want of memory at the opening, and a session that is none.
pub fn run_searches<R: Threads + Wait + Sync>(
    rt: &R,
    alloc: Global,
    searches: &Searches,
    policy: Policy,
    workers: u32,
) -> Result<Closed<Searches>, AllocError>
    requires some { 0 < workers }
    ensures { IfOk result (λ closed. closed.session ≡ searches.now) }
{
    let shape = shape_of(alloc, searches.session())?;
    run_closed(
        rt,
        alloc,
        searches,
        shape,
        policy,
        workers,
        &OpenGate::make(),
    )
}

/// The acts, run so, with themselves as the gate.
///
/// # Errors
///
/// Want of memory at the opening, and a session that is none.
pub fn run_acts<R: Threads + Wait + Sync>(
    rt: &R,
    alloc: Global,
    acts: &Acts,
    policy: Policy,
    workers: u32,
) -> Result<Closed<Acts>, AllocError>
    requires some { 0 < workers }
    ensures { IfOk result (λ closed. closed.session ≡ acts.now) }
{
    let shape = shape_of(alloc, acts.session())?;
    run_closed(rt, alloc, acts, shape, policy, workers, acts)
}

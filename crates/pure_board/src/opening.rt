//! Opening a board.
ghost use Rattle.std.specs.Prelude.{◌≡◌, ◌<◌, ◌+◌, ◌-◌, ◌^◌, [], length, vec_len, vec_capacity, IfOk, OnOk};
ghost use Rattle.pure_machine.specs.Policy.{Opening};
ghost use Rattle.pure_machine.specs.Step.{IsShape};
ghost use Rattle.pure_board_lock.specs.Names.{desk_id, desk_session};
ghost use Rattle.pure_board_lock.specs.Seats.{view_of};
ghost use Rattle.pure_board_lock.specs.View.{newcomer};
ghost use Rattle.pure_board.specs.Tokens.{sight, counting};
ghost use Rattle.pure_board.specs.Boards.{IsNumberedFresh, AreOpened};

use crate::board::{Board, Seat};
use crate::tokens::{CoreDesk, Token};
use pure_core::{Node, Policy, Work};
use std::alloc::{AllocError, Global};

/// A board that was just opened, and its seats, as many as there are workers.
#[derive(Drop)]
pub struct Opened<W: Work> {
    pub board: Board<W>,
    pub seats: Vec<Seat<W>>,
}

/// The desk with the core that was opened so, and its first token.
fn first_token<W: Work>(
    alloc: Global,
    work: &W,
    shape: Vec<Node>,
    policy: Policy,
    workers: u32,
) -> Result<(CoreDesk<W>, Token<W>), AllocError>
    requires session { shape.items ≡ W.shape work.now }
    requires formed { IsShape shape.items }
    requires few { vec_len shape < 2 ^ 32 - 1 }
    ensures desk { IfOk result (λ r. (r.1.table_id ≡ desk_id r.0) × (desk_session r.0 ≡ work.now)) }
    ensures token { IfOk result (λ r. r.1.me ≡ (counting work.now (record { shape = shape.items; policy = policy; workers = workers }) 1, [])) }
{
    let core = pure_core::open(alloc, work, shape, policy, workers)?;
    let (desk, token) = CoreDesk::open(alloc, core, work)?;
    Ok((desk, token))
}

/// The next seat, of this number.
fn next_seat<W: Work>(desk: &CoreDesk<W>, first: &mut Token<W>, number: u32) -> Seat<W>
    requires desk { first.old.table_id ≡ desk_id desk.now }
    requires first { (k : W) × (o : Opening) × (first.old.me ≡ (counting k o number, [])) × (o.shape ≡ W.shape k) × (0 < number) × (number < o.workers) }
    ensures desk { first.new.table_id ≡ first.old.table_id }
    ensures first { (k : W) (o : Opening) → first.old.me ≡ (counting k o number, []) → first.new.me ≡ (counting k o (number + 1), []) }
    ensures seat { (k : W) (o : Opening) → first.old.me ≡ (counting k o number, []) → result ≡ sight first.old.table_id k o (newcomer (counting k o number)) }
{
    let token = desk.split(first);
    Seat { token }
}

/// The first seat, once it has made the others.
fn first_seat<W: Work>(token: Token<W>, workers: u32) -> Seat<W>
    requires first { (k : W) × (o : Opening) × (token.me ≡ (counting k o workers, [])) × (o.shape ≡ W.shape k) × (o.workers ≡ workers) × (0 < workers) }
    ensures name { result.plan.name ≡ token.table_id }
    ensures seat { (k : W) (o : Opening) → token.me ≡ (counting k o workers, []) → result ≡ sight token.table_id k o (counting k o workers) }
{
    Seat { token }
}

/// All seats but the first.
fn other_seats<W: Work>(
    alloc: Global,
    desk: &CoreDesk<W>,
    first: &mut Token<W>,
    workers: u32,
) -> Result<Vec<Seat<W>>, AllocError>
    requires desk { first.old.table_id ≡ desk_id desk.now }
    requires first { (k : W) × (o : Opening) × (first.old.me ≡ (counting k o 1, [])) × (o.shape ≡ W.shape k) × (o.workers ≡ workers) × (0 < workers) }
    ensures desk { first.new.table_id ≡ first.old.table_id }
    ensures seats { (k : W) (o : Opening) → first.old.me ≡ (counting k o 1, []) → IfOk result (λ seats. (first.new.me ≡ (counting k o workers, [])) × IsNumberedFresh first.old.table_id k o 1 seats.items × (length seats.items + 1 ≡ workers)) }
    ensures room { IfOk result (λ seats. vec_len seats < vec_capacity seats) }
{
    let mut seats = Vec::with_capacity(alloc, workers as usize)?;
    for number in 1..workers {
        seats.push_reserved(next_seat(desk, first, number));
    }
    Ok(seats)
}

/// The board and all its seats, once the first has made the others.
fn all_opened<W: Work>(
    desk: CoreDesk<W>,
    mut seats: Vec<Seat<W>>,
    first: Token<W>,
    workers: u32,
) -> Opened<W>
    requires first { (k : W) × (o : Opening) × (first.me ≡ (counting k o workers, [])) × (o.shape ≡ W.shape k) × (o.workers ≡ workers) × (0 < workers) }
    requires room { vec_len seats < vec_capacity seats }
    ensures session { result.board.session ≡ desk_session desk }
    ensures seats { (k : W) (o : Opening) → desk_session desk ≡ k → first.me ≡ (counting k o workers, []) → o.workers ≡ workers → first.table_id ≡ desk_id desk → IsNumberedFresh (desk_id desk) k o 1 seats.items → length seats.items + 1 ≡ workers
        → AreOpened result.board o result.seats.items }
{
    seats.push_reserved(first_seat(first, workers));
    Opened {
        board: Board { desk },
        seats,
    }
}

/// Lets go of a board that couldn't be opened.
fn refused<W: Work>(
    _desk: CoreDesk<W>,
    _first: Token<W>,
    error: AllocError,
) -> Result<Opened<W>, AllocError>
    ensures { OnOk result ⊥ }
{
    Err(error)
}

impl<W: Work> Board<W> {
    /// A board with the core at the opening of a session, and its seats.
    ///
    /// # Errors
    ///
    /// Want of memory alone.
    pub fn open(
        alloc: Global,
        work: &W,
        shape: Vec<Node>,
        policy: Policy,
        workers: u32,
    ) -> Result<Opened<W>, AllocError>
        requires session { shape.items ≡ W.shape work.now }
        requires formed { IsShape shape.items }
        requires few { vec_len shape < 2 ^ 32 - 1 }
        requires some { 0 < workers }
        ensures session { IfOk result (λ opened. opened.board.session ≡ work.now) }
        ensures seats { IfOk result (λ opened. AreOpened opened.board (record { shape = shape.items; policy = policy; workers = workers }) opened.seats.items) }
    {
        let (desk, mut first) = first_token(alloc, work, shape, policy, workers)?;
        let others = other_seats(alloc, &desk, &mut first, workers);
        match others {
            Err(error) => refused(desk, first, error),
            Ok(seats) => Ok(all_opened(desk, seats, first, workers)),
        }
    }
}

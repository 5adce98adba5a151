//! Closing a board.
ghost use Rattle.std.specs.Prelude.{◌≡◌, ◌<◌, ◌∷◌, ◌++◌, [], List, true, is_some};
ghost use Rattle.pure_text.specs.Lists.{Each};
ghost use Rattle.pure_machine.specs.Policy.{Opening};
ghost use Rattle.pure_board_lock.specs.Names.{desk_id};
ghost use Rattle.pure_board_lock.specs.Seats.{view_of};
ghost use Rattle.pure_board.specs.Boards.{AreAll, IsEnded, IsOfSeats, HasTaken};
ghost use Rattle.pure_board.specs.Sight.{Sight};

use crate::board::{Board, Seat};
use crate::tokens::{CoreDesk, Token};
use pure_core::{Core, Work};
use std::marker::Model;

/// A board that was closed: its session, how its core was opened, its whole history, and its core.
#[derive(Drop)]
pub struct Closed<W: Work> {
    core: Core<W>,
    note: Token<W>,
    ghost named: { is_some note.me.0.session ≡ true },
    ghost opened: { is_some note.me.0.opening ≡ true },
}

impl<W: Work> Model for Closed<W> {
    ghost use Rattle.pure_board.specs.Boards.{Ending};

    ghost Value = { Ending W W.Goal W.Closed W.Outcome };

    ghost use Rattle.pure_board.specs.Boards.{IsEnded};
    ghost use Rattle.pure_board.specs.Tokens.{value_there};

    ghost view = { λ c. record { session = value_there c.note.me.0.session c.named; opening = value_there c.note.me.0.opening c.opened; history = c.note.me.0.seen; core = c.core } };

    ghost invariant = { λ c. IsEnded W.shape W.forks W.closes W.may W.faults (record { session = value_there c.note.me.0.session c.named; opening = value_there c.note.me.0.opening c.opened; history = c.note.me.0.seen; core = c.core }) };
}

impl<W: Work> Closed<W> {
    /// The core, which takes no memory.
    pub fn core(&self) -> &Core<W>
        ensures { result.now ≡ self.now.core }
    {
        &self.core
    }

    /// The history of a closed board is a numbered legal run, and its core is in the state of that.
    pub fn known(&self)
        ensures { IsEnded W.shape W.forks W.closes W.may W.faults self.now }
    {
        let _note = &self.note;
    }
}

/// A token that is a seat's.
fn token_of<W: Work>(seat: Seat<W>) -> Token<W>
    ensures name { result.table_id ≡ seat.plan.name }
    ensures place { result.me.1 ≡ [] }
    ensures taken { HasTaken seat.plan.session seat.opening (view_of result) (seat ∷ []) }
    ensures alone { (view_of result).joined ≡ [] }
{
    let Seat { token } = seat;
    token
}

/// The token takes in a seat.
fn take_in<W: Work>(desk: &CoreDesk<W>, token: &mut Token<W>, seat: Seat<W>)
    requires desk { (token.old.table_id ≡ desk_id desk.now) × (seat.plan.name ≡ desk_id desk.now) }
    requires place { token.old.me.1 ≡ [] }
    requires taken { (k : W) × (o : Opening) × (seats : List (Sight W W.Goal W.Closed W.Outcome)) × HasTaken k o (view_of token.old) seats }
    ensures desk { token.new.table_id ≡ token.old.table_id }
    ensures place { token.new.me.1 ≡ [] }
    ensures taken { (k : W) (o : Opening) (seats : List (Sight W W.Goal W.Closed W.Outcome)) → HasTaken k o (view_of token.old) seats → seat.opening ≡ o → HasTaken k o (view_of token.new) (seat ∷ seats) }
{
    let other = token_of(seat);
    desk.join(token, other);
}

/// The token takes in all these seats.
fn gather<W: Work>(desk: &CoreDesk<W>, token: &mut Token<W>, mut rest: Vec<Seat<W>>)
    requires desk { (token.old.table_id ≡ desk_id desk.now) × Each (λ s. s.plan.name ≡ desk_id desk.now) rest.items }
    requires place { token.old.me.1 ≡ [] }
    requires taken { (k : W) × (o : Opening) × (seats : List (Sight W W.Goal W.Closed W.Outcome)) × HasTaken k o (view_of token.old) seats × Each (λ s. s.opening ≡ o) rest.items }
    ensures desk { token.new.table_id ≡ token.old.table_id }
    ensures place { token.new.me.1 ≡ [] }
    ensures taken { (k : W) (o : Opening) (seats : List (Sight W W.Goal W.Closed W.Outcome)) → HasTaken k o (view_of token.old) seats → Each (λ s. s.opening ≡ o) rest.items → HasTaken k o (view_of token.new) (rest.items ++ seats) }
{
    while let Some(seat) = rest.pop() {
        take_in(desk, token, seat);
    }
}

impl<W: Work> Board<W> {
    /// Closes a board, to which all its seats are given back. It takes no memory.
    pub fn close(self, mut seats: Vec<Seat<W>>) -> Closed<W>
        requires board { Each (λ s. s.plan ≡ self) seats.items }
        requires opened { (o : Opening) × (0 < o.workers) × Each (λ s. s.opening ≡ o) seats.items × AreAll o.workers seats.items }
        ensures session { result.session ≡ self.session }
        ensures ended { IsEnded W.shape W.forks W.closes W.may W.faults result }
        ensures seats { IsOfSeats seats.items result }
    {
        let Board { desk } = self;
        let mut token = match seats.pop() {
            None => unreachable!(),
            Some(seat) => token_of(seat),
        };
        gather(&desk, &mut token, seats);
        let pure_board_lock::Closed { object, note } = desk.close(token);
        Closed { core: object, note }
    }
}

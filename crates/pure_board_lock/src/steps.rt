//! The calls by which a seat takes the object, changes it and gives it back.
ghost use Rattle.std.specs.Prelude.{◌≡◌, ◌∷◌, [], ◌++◌, Some, None};
ghost use Rattle.pure_board_lock.specs.History.{events};
ghost use Rattle.pure_board_lock.specs.View.{looking, entering, releasing};
ghost use Rattle.pure_board_lock.specs.Steps.{IsHeld};
ghost use Rattle.pure_board_lock.specs.Seats.{view_of, IsFree, HasTurn, IsAsKept, IsNext};

use crate::course::Course;
use crate::desk::{Desk, Seat};
use crate::plays::{GivesBack, Looks, Ticks, Tries};
use crossbeam_utils::Backoff;
use std::sync::Wait;

impl<C: Drop, K, O, E, P: Course<C, K, O, E>> Desk<C, K, O, E, P> {
    ghost use Rattle.pure_board_lock.specs.Names.{desk_id};

    /// Takes the object, which no other seat has then. It may wait for another seat to give it back.
    pub fn hold<R: Wait>(&self, rt: &R, seat: &mut Seat<C, K, O, E>) -> C
        requires desk { seat.old.table_id ≡ desk_id self.now }
        requires free { IsFree seat.old }
        ensures desk { seat.new.table_id ≡ seat.old.table_id }
        ensures turn { HasTurn seat.new }
        ensures held { IsHeld P.after P.legal (view_of seat.old) (view_of seat.new) result }
    {
        let backoff = Backoff::new();
        for _ in rt.forever() {
            if self
                .table
                .shared
                .compare_exchange::<Tries<P>>(seat, 1, 0, 1)
                == 0
            {
                return self.lift(seat);
            }
            backoff.snooze();
        }
        unreachable!()
    }

    /// The object that the seat has.
    fn lift(&self, seat: &mut Seat<C, K, O, E>) -> C
        requires desk { seat.old.table_id ≡ desk_id self.now }
        requires has { (c : C) × (seat.old.me.1 ≡ (0, Some c) ∷ []) }
        ensures desk { seat.new.table_id ≡ seat.old.table_id }
        ensures object { seat.old.me.1 ≡ (0, Some result) ∷ [] }
        ensures place { seat.new.me ≡ (seat.old.me.0, (0, None) ∷ []) }
    {
        match self.table.shared.exchange(seat, 0, None) {
            None => unreachable!(),
            Some(object) => object,
        }
    }

    /// The object in its place.
    fn lay(&self, seat: &mut Seat<C, K, O, E>, object: C)
        requires desk { seat.old.table_id ≡ desk_id self.now }
        requires place { seat.old.me.1 ≡ (0, None) ∷ [] }
        ensures desk { seat.new.table_id ≡ seat.old.table_id }
        ensures has { seat.new.me ≡ (seat.old.me.0, (0, Some object) ∷ []) }
    {
        drop(self.table.shared.exchange(seat, 0, Some(object)));
    }

    /// The holder looks: it has then seen the whole history.
    pub fn look(&self, seat: &mut Seat<C, K, O, E>)
        requires desk { seat.old.table_id ≡ desk_id self.now }
        requires turn { HasTurn seat.old }
        ensures desk { seat.new.table_id ≡ seat.old.table_id }
        ensures seen { seat.new.me ≡ (looking seat.old.me.0, seat.old.me.1) }
    {
        self.table.shared.load::<Looks>(seat, 0);
    }

    /// Enters the event that the object has more, and gives the object back.
    pub fn enter(&self, seat: &mut Seat<C, K, O, E>, object: C)
        requires desk { seat.old.table_id ≡ desk_id self.now }
        requires turn { HasTurn seat.old }
        requires alone { (view_of seat.old).joined ≡ [] }
        requires next { (e : E) × IsNext P.history P.after P.legal (view_of seat.old) object e }
        ensures desk { seat.new.table_id ≡ seat.old.table_id }
        ensures entered { (e : E) → P.history object ≡ events (view_of seat.old).kept ++ e ∷ [] → seat.new.me ≡ (releasing (entering (view_of seat.old) e), []) }
    {
        self.lay(seat, object);
        self.table.shared.fetch_add::<Ticks<P>>(seat, 0, 1);
        self.table.shared.store::<GivesBack>(seat, 1, 0);
    }

    /// Gives the object back as it was taken.
    pub fn give_back(&self, seat: &mut Seat<C, K, O, E>, object: C)
        requires desk { seat.old.table_id ≡ desk_id self.now }
        requires turn { HasTurn seat.old }
        requires same { IsAsKept P.after (view_of seat.old) object }
        ensures desk { seat.new.table_id ≡ seat.old.table_id }
        ensures released { seat.new.me ≡ (releasing (view_of seat.old), []) }
    {
        self.lay(seat, object);
        self.table.shared.store::<GivesBack>(seat, 1, 0);
    }
}

//! A desk and its seats.
ghost use Rattle.std.specs.Prelude.{◌≡◌, [], true, false, IfOk};
ghost use Rattle.pure_board_lock.specs.View.{first_seat, opened_seat, splitting, newcomer, joining};
ghost use Rattle.pure_board_lock.specs.Seats.{view_of, IsFree};

use crate::course::Course;
use crate::plays::{Both, Lays, OneMore, TakesPlace};
use crate::rule::{OneHistory, Sight};
use atomic_table::Table;
use std::alloc::{AllocError, Global};

/// A desk on which one object lies.
#[derive(Drop)]
pub struct Desk<C: Drop, K, O, E, P: Course<C, K, O, E>> {
    pub(crate) table: Table<Option<C>, Sight<K, O, E>, K, OneHistory<P>, Global>,
    ghost sized: { (table.shared.table_id.words ≡ 2) × (table.shared.table_id.slots ≡ 1) },
}

/// A seat at a desk. It has no bytes: proofs alone see what it knows.
pub type Seat<C, K, O, E> = atomic_table::Seat<Option<C>, Sight<K, O, E>>;

impl<C: Drop, K, O, E, P: Course<C, K, O, E>> Desk<C, K, O, E, P> {
    ghost use Rattle.pure_board_lock.specs.Names.{desk_id, desk_session};

    /// A desk on which the object lies, and its first seat, of number 0, which has seen and entered nothing.
    ///
    /// # Errors
    ///
    /// Want of memory alone.
    pub fn open(
        alloc: Global,
        object: C,
        session: &K,
    ) -> Result<(Desk<C, K, O, E, P>, Seat<C, K, O, E>), AllocError>
        requires object { object ≡ P.after (P.opened object) [] }
        requires legal { P.legal session.now (P.opened object) [] }
        ensures desk { IfOk result (λ r. r.1.table_id ≡ desk_id r.0) }
        ensures session { IfOk result (λ r. desk_session r.0 ≡ session.now) }
        ensures seat { IfOk result (λ r. r.1.me ≡ (opened_seat (first_seat session.now) (P.opened object), [])) }
    {
        let (table, mut seat) = Table::vacant(alloc, &[0, 1], 1, session)?;
        table.shared.store::<TakesPlace>(&mut seat, 0, 0);
        drop(table.shared.exchange(&mut seat, 0, Some(object)));
        table.shared.store::<Lays<P>>(&mut seat, 1, 0);
        Ok((Desk { table }, seat))
    }

    /// Another seat, of the next number, made by the seat that counts them.
    pub fn split(&self, seat: &mut Seat<C, K, O, E>) -> Seat<C, K, O, E>
        requires desk { seat.old.table_id ≡ desk_id self.now }
        requires free { IsFree seat.old }
        requires counts { (view_of seat.old).counts ≡ true }
        ensures desk { (seat.new.table_id ≡ seat.old.table_id) × (result.table_id ≡ seat.old.table_id) }
        ensures kept { seat.new.me ≡ (splitting (view_of seat.old), []) }
        ensures made { result.me ≡ (newcomer (view_of seat.old), []) }
    {
        self.table.shared.split_seat::<OneMore>(seat)
    }

    /// Takes in another seat.
    pub fn join(&self, seat: &mut Seat<C, K, O, E>, other: Seat<C, K, O, E>)
        requires desk { (seat.old.table_id ≡ desk_id self.now) × (other.table_id ≡ desk_id self.now) }
        requires free { IsFree seat.old × IsFree other }
        ensures desk { seat.new.table_id ≡ seat.old.table_id }
        ensures both { seat.new.me ≡ (joining (view_of seat.old) (view_of other), []) }
    {
        self.table.shared.join_seat::<Both>(seat, other);
    }
}

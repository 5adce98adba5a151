//! The end of a desk.
ghost use Rattle.std.specs.Prelude.{◌≡◌, [], true, false};
ghost use Rattle.pure_board_lock.specs.View.{noted};
ghost use Rattle.pure_board_lock.specs.Seats.{view_of, IsFree, HasAll, IsWhole};

use crate::course::Course;
use crate::desk::{Desk, Seat};
use crate::plays::Notes;

/// The object of a desk that was closed, with a note of what the last seat knew.
pub struct Closed<C, K, O, E> {
    pub object: C,
    pub note: Seat<C, K, O, E>,
}

impl<C: Drop, K, O, E, P: Course<C, K, O, E>> Desk<C, K, O, E, P> {
    ghost use Rattle.pure_board_lock.specs.Names.{desk_id};

    /// Closes a desk, all of whose seats the last one has taken in. It takes no memory.
    pub fn close(self, mut seat: Seat<C, K, O, E>) -> Closed<C, K, O, E>
        requires desk { seat.table_id ≡ desk_id self }
        requires free { IsFree seat }
        requires all { HasAll (view_of seat) }
        ensures note { view_of result.note ≡ noted (view_of seat) }
        ensures whole { IsWhole P.after P.legal (view_of seat) result.object }
    {
        let note = self.table.shared.split_seat::<Notes>(&mut seat);
        let Desk { table } = self;
        let mut closed = table.close_with(seat);
        let object = match closed.take(0) {
            None => unreachable!(),
            Some(object) => object,
        };
        closed.free();
        Closed { object, note }
    }
}

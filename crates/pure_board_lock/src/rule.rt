//! The rule of a desk's table, and what a seat at it knows.
use crate::course::Course;
use atomic_table::TableRule;
use std::marker::{Model, PhantomData};

/// What a seat knows. Proofs alone see it, and no value of it is made.
pub struct Sight<K, O, E> {
    of: PhantomData<(K, O, E)>,
}

impl<K, O, E> Model for Sight<K, O, E> {
    ghost use Rattle.pure_board_lock.specs.View.{View, spent};

    ghost Value = { View K O E };

    ghost view = { λ _. spent };
}

/// The rule by which the object on a desk has one history.
pub struct OneHistory<P> {
    of: PhantomData<P>,
}

impl<C, K, O, E, P: Course<C, K, O, E>> TableRule<Option<C>, Sight<K, O, E>, K> for OneHistory<P> {
    ghost use Rattle.pure_board_lock.specs.View.{first_seat};
    ghost use Rattle.pure_board_lock.specs.Rule.{IsKept};

    ghost holds = { IsKept P.after P.legal };

    ghost first = { first_seat };
}

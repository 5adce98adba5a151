//! What each step on a desk tells.
ghost use Rattle.pure_board_lock.specs.View.{spent, splitting, newcomer, joining, noted};
ghost use Rattle.pure_board_lock.specs.Steps.{takes_place, lays, tries, looks, ticks, gives_back};

use crate::course::Course;
use crate::rule::Sight;
use atomic_table::{Join, Play, Split};
use std::marker::PhantomData;

/// The first seat takes the empty place.
pub(crate) struct TakesPlace;

impl<C, K, O, E> Play<Option<C>, Sight<K, O, E>> for TakesPlace {
    ghost then = { takes_place };
}

/// The first seat lays the object there.
pub(crate) struct Lays<P> {
    of: PhantomData<P>,
}

impl<C, K, O, E, P: Course<C, K, O, E>> Play<Option<C>, Sight<K, O, E>> for Lays<P> {
    ghost then = { lays P.opened };
}

/// A seat tries to take the object.
pub(crate) struct Tries<P> {
    of: PhantomData<P>,
}

impl<C, K, O, E, P: Course<C, K, O, E>> Play<Option<C>, Sight<K, O, E>> for Tries<P> {
    ghost then = { tries P.after P.legal };
}

/// The holder looks at the whole history.
pub(crate) struct Looks;

impl<C, K, O, E> Play<Option<C>, Sight<K, O, E>> for Looks {
    ghost then = { looks };
}

/// The holder enters an event.
pub(crate) struct Ticks<P> {
    of: PhantomData<P>,
}

impl<C, K, O, E, P: Course<C, K, O, E>> Play<Option<C>, Sight<K, O, E>> for Ticks<P> {
    ghost then = { ticks P.history };
}

/// The holder gives the object back.
pub(crate) struct GivesBack;

impl<C, K, O, E> Play<Option<C>, Sight<K, O, E>> for GivesBack {
    ghost then = { gives_back };
}

/// The seat that counts makes another.
pub(crate) struct OneMore;

impl<K, O, E> Split<Sight<K, O, E>> for OneMore {
    ghost left = { splitting };

    ghost right = { newcomer };
}

/// A seat takes in another.
pub(crate) struct Both;

impl<K, O, E> Join<Sight<K, O, E>> for Both {
    ghost both = { joining };

    ghost spent = { spent };
}

/// A seat leaves a note of what it knows.
pub(crate) struct Notes;

impl<K, O, E> Split<Sight<K, O, E>> for Notes {
    ghost left = { λ v. v };

    ghost right = { noted };
}

//! The core on a desk: what determines it, and which histories it may have.
use pure_board_lock::Course;
use pure_core::{Core, Work};
use std::marker::{Model, PhantomData};

/// How a core is opened. Proofs alone see it, and no value of it is made.
pub struct Terms {
    of: PhantomData<()>,
}

impl Model for Terms {
    ghost use Rattle.std.specs.Prelude.{[], false};
    ghost use Rattle.pure_machine.specs.Policy.{Opening};

    ghost Value = { Opening };

    ghost view = { λ _. record { shape = []; policy = record { fail_fast = false; cancels = [] }; workers = 0 } };
}

/// What happens on a board. Proofs alone see it, and no value of it is made.
pub struct Happening<G, C, O> {
    of: PhantomData<(G, C, O)>,
}

impl<G, C, O> Model for Happening<G, C, O> {
    ghost use Rattle.pure_machine.specs.State.{Event, Stop};

    ghost Value = { Event G C O };

    ghost view = { λ _. Stop };
}

/// The core of a work has numbered legal runs of it as histories.
pub struct Lawful<W> {
    of: PhantomData<W>,
}

impl<W: Work> Course<Core<W>, W, Terms, Happening<W::Goal, W::Closed, W::Outcome>> for Lawful<W> {
    ghost use Rattle.pure_core_runs.specs.Seats.{state_of};
    ghost use Rattle.pure_board.specs.Course.{IsLawful};

    ghost opened = { λ s. s.opening };

    ghost history = { λ s. s.history };

    ghost after = { state_of };

    ghost legal = { IsLawful W.shape W.forks W.closes W.may W.faults };
}

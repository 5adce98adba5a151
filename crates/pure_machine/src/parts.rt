//! What a machine keeps of each theory, of each promise, and of each event.
use std::marker::Model;
use std::sync::Arc;

/// What became of a theory: it waits; it runs, and its commands have made so many forks; or a value closed it.
#[derive(Drop)]
pub enum Progress<C> {
    Waiting,
    Running { forks: u32 },
    Closed { forks: u32, value: Arc<C> },
}

/// A theory, by what became of it.
#[derive(Drop)]
pub struct Theory<C> {
    pub progress: Progress<C>,
}

impl<C> Model for Theory<C> {
    ghost use Rattle.pure_machine.specs.State as seen;

    ghost Value = { seen.Progress C };

    ghost use Rattle.pure_machine.specs.Seen.{seen_progress};

    ghost view = { λ t. seen_progress t.progress };
}

/// What became of a promise: it is ready; its proof runs; it is settled by an outcome; or it is cancelled.
#[derive(Drop)]
pub enum Standing<O> {
    Ready,
    Taken,
    Settled { outcome: Arc<O> },
    Cancelled,
}

/// A promise: the theory whose command forked it, the place of this command from 0, its goal, and what became of it.
#[derive(Drop)]
pub struct Promise<G, O> {
    pub theory: u32,
    pub command: u32,
    pub goal: Arc<G>,
    pub standing: Standing<O>,
}

impl<G, O> Model for Promise<G, O> {
    ghost use Rattle.pure_machine.specs.State as seen;

    ghost Value = { seen.Promise G O };

    ghost use Rattle.pure_machine.specs.Seen.{seen_standing};

    ghost view = { λ p. record { theory = p.theory; command = p.command; goal = p.goal.value; standing = seen_standing p.standing } };
}

/// What happens to a machine.
#[derive(Drop)]
pub enum Event<G, C, O> {
    TakeTheory {
        number: u32,
    },
    TakeProof {
        number: u32,
    },
    Fork {
        theory: u32,
        command: u32,
        goal: Arc<G>,
    },
    CloseTheory {
        number: u32,
        value: Arc<C>,
    },
    Deliver {
        number: u32,
        outcome: Arc<O>,
        fault: bool,
    },
    Stop,
}

/// An entry of the history.
#[derive(Drop)]
pub struct Entry<G, C, O> {
    pub event: Event<G, C, O>,
}

impl<G, C, O> Model for Entry<G, C, O> {
    ghost use Rattle.pure_machine.specs.State as seen;

    ghost Value = { seen.Event G C O };

    ghost use Rattle.pure_machine.specs.Seen.{seen_event};

    ghost view = { λ e. seen_event e.event };
}

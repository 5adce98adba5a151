//! A theory that runs.

use crate::closed::Closed;
use pure_print::Row;
use pure_session_meaning::declare::{Duty, Note};
use pure_session_meaning::theory::Stage;
use std::collections::VecDeque;

/// What the commands left so far: the rows of the notes that were handed out, with a hole at each lemma and have, the stage behind them all, how many commands are left and how many parts these have, and the notes that still wait to be handed out, in order.
#[derive(Drop)]
pub(crate) struct Going {
    pub(crate) rows: Vec<Option<Row>>,
    pub(crate) now: Stage,
    pub(crate) left: u32,
    pub(crate) parts: usize,
    pub(crate) waiting: VecDeque<Note>,
}

/// A theory that was refused when it began, by this row, or one whose commands run.
#[derive(Drop)]
pub(crate) enum Standing {
    Barred { row: Row },
    Going { going: Going },
}

/// A theory that runs: its index, and how far it has come.
#[derive(Drop)]
pub struct Run {
    pub(crate) index: u32,
    pub(crate) standing: Standing,
}

/// What a turn of a theory's run gives: a part of a command declared something or was refused, or the command at this place, from 0, bound a lemma or have whose proof is still to be given, or nothing was left.
#[derive(Drop)]
pub enum Turn {
    Declared,
    Forked { command: u32, goal: Duty },
    Closed { closed: Closed },
}

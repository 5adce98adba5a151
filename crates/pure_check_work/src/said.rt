//! What the table is formed from, from the closed board alone.
ghost use Rattle.std.specs.Prelude.{◌≡◌, IfOk, map};
ghost use Rattle.pure_table.specs.TheoryRun.Outline.{outlines};
ghost use Rattle.pure_machine.specs.Step.{IsFinished};
ghost use Rattle.pure_check_work.specs.Said.{AreSaidBy};

use crate::checking::Checking;
use crate::entries::{duties, entries};
use pure_board::Closed;
use pure_core_end::{Joined, join_core};
use pure_table::declare::Duty;
use pure_table::promise::Entry;
use std::alloc::AllocError;
use std::sync::Arc;

/// What a session's theories left, in load order, and their lemmas with their entries, in order of their labels.
#[derive(Drop)]
pub struct Said {
    pub closed: Vec<Arc<pure_table::theory_run::Closed>>,
    pub entries: Vec<Entry>,
    pub duties: Vec<Arc<Duty>>,
}

/// What the theories of a session left, and their lemmas with their entries, by a closed board on which all is finished.
///
/// # Errors
///
/// Want of memory alone.
pub fn said_by(work: &Checking, board: &Closed<Checking>) -> Result<Said, AllocError>
    requires session { board.now.session ≡ work.now }
    requires finished { IsFinished board.now.core }
    ensures { IfOk result (λ said. AreSaidBy work.now.texts work.now.theories (board.now.core).promises (outlines said.closed.items) said.entries.items (map (λ d. d.value) said.duties.items)) }
{
    work.is_loaded_session();
    board.known();
    let Joined { values, promises } = join_core(work.alloc, work, board.core())?;
    let duties = duties(work.alloc, promises.as_slice())?;
    let entries = entries(work.alloc, promises)?;
    Ok(Said {
        closed: values,
        entries,
        duties,
    })
}

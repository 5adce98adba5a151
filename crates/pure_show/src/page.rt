//! What was written of a proof so far.
ghost use Rattle.std.specs.Prelude.{◌≡◌, ◌++◌, ◌<◌, List, ℕ, Some, None, IfOk, OnOk};
ghost use Rattle.pure_places.specs.Seen.{seen_part};
ghost use Rattle.pure_resolve.specs.GoalSteps.State.{State, IsTheoremOf};
ghost use Rattle.pure_row_places.specs.Cursors.{IsAt};
ghost use Rattle.pure_script.specs.Seen.{seen_step};
ghost use Rattle.pure_show.specs.Answers.{place_of};
ghost use Rattle.pure_show.specs.Lines as spec;
ghost use Rattle.pure_show.specs.Progress.{IsPushed, seen_page};

use crate::state::{push_term, state_lines};
use crate::step::{push_before_place, push_behind_place};
use pure_places::Part;
use pure_row_places::{Cursor, beginning, place_of_step, push_place};
use pure_script::Step;
use pure_term::{Names, Term};
use pure_theorem::Thm;
use std::alloc::{AllocError, Global};

/// 64 MB for the lines of all states.
const LIMIT: usize = 67_108_864;

/// What was written so far, the room in bytes that is left for the lines of states, or none once a state didn't fit, and the
/// last place in the source that was looked up.
#[derive(Drop)]
pub(crate) struct Page {
    pub(crate) text: Vec<u8>,
    pub(crate) room: Option<usize>,
    pub(crate) cursor: Cursor,
}

/// Appends the lemma's line.
fn push_lemma(
    alloc: Global,
    text: &mut Vec<u8>,
    names: &Names,
    name: &[u8],
    statement: &Term,
) -> Result<(), AllocError>
    ensures { OnOk result (text.new.items ≡ text.old.items ++ spec.lemma_line names.now name.now statement.now) }
{
    text.extend_from_slice(b"lemma ")?;
    text.extend_from_slice(name)?;
    text.extend_from_slice(b": ")?;
    push_term(alloc, text, names, statement)?;
    text.extend_from_slice(b"\n")
}

/// The lines, where they fit, or the line that stands for them; and the room behind them.
fn push_fitting(text: &mut Vec<u8>, room: usize, lines: &[u8]) -> Result<Option<usize>, AllocError>
    ensures { IfOk result (λ left. (text.new.items ≡ text.old.items ++ spec.written_lines (Some room) lines.now) × (left ≡ spec.room_behind (Some room) lines.now)) }
{
    if lines.len() <= room {
        text.extend_from_slice(lines)?;
        return Ok(Some(room - lines.len()));
    }
    text.extend_from_slice(b"  state too large\n")?;
    Ok(None)
}

/// Appends the lines of a goal's state, where they fit, or the line that stands for them; and gives the room behind them.
fn push_state(
    alloc: Global,
    text: &mut Vec<u8>,
    names: &Names,
    room: Option<usize>,
    goal: &Thm,
) -> Result<Option<usize>, AllocError>
    ensures { IfOk result (λ left. (s : State) → IsTheoremOf s goal.now → (text.new.items ≡ text.old.items ++ spec.written_lines room (spec.state_lines names.now s)) × (left ≡ spec.room_behind room (spec.state_lines names.now s))) }
{
    match room {
        None => {
            text.extend_from_slice(b"  state too large\n")?;
            Ok(None)
        }
        Some(left) => {
            let lines = state_lines(alloc, names, goal)?;
            push_fitting(text, left, lines.as_slice())
        }
    }
}

/// Appends the line of a step of the command, whose place the cursor goes to.
fn push_step(
    alloc: Global,
    text: &mut Vec<u8>,
    source: &[u8],
    part: &Part,
    cursor: Cursor,
    number: u32,
    step: &Step,
) -> Result<Cursor, AllocError>
    requires { IsAt source.now cursor }
    ensures text { IfOk result (λ _. text.new.items ≡ text.old.items ++ spec.step_line (place_of source.now (seen_part part.now)) number (seen_step step.now)) }
    ensures cursor { IfOk result (IsAt source.now) }
{
    push_before_place(alloc, text, number, step)?;
    let now = push_place(alloc, text, source, cursor, place_of_step(part, number))?;
    push_behind_place(alloc, text, step)?;
    Ok(now)
}

impl Page {
    /// The lemma's line alone.
    pub(crate) fn begin(
        alloc: Global,
        names: &Names,
        name: &[u8],
        statement: &Term,
    ) -> Result<Page, AllocError>
        ensures text { IfOk result (λ page. page.text.items ≡ spec.lemma_line names.now name.now statement.now) }
        ensures room { IfOk result (λ page. page.room ≡ Some spec.limit) }
        ensures cursor { IfOk result (λ page. (source : List ℕ) → IsAt source page.cursor) }
    {
        let mut text = Vec::new(alloc);
        push_lemma(alloc, &mut text, names, name, statement)?;
        Ok(Page {
            text,
            room: Some(LIMIT),
            cursor: beginning(),
        })
    }

    /// Appends a step of the command, and the goal's state on which it is made.
    pub(crate) fn push(
        &mut self,
        alloc: Global,
        names: &Names,
        source: &[u8],
        part: &Part,
        number: u32,
        step: &Step,
        goal: &Thm,
    ) -> Result<(), AllocError>
        requires { IsAt source.now self.old.cursor }
        ensures written { OnOk result ((s : State) → IsTheoremOf s goal.now → IsPushed names.now (place_of source.now (seen_part part.now)) (seen_page self.old) (seen_page self.new) number (seen_step step.now) s) }
        ensures cursor { OnOk result (IsAt source.now self.new.cursor) }
    {
        self.cursor = push_step(
            alloc,
            &mut self.text,
            source,
            part,
            self.cursor,
            number,
            step,
        )?;
        self.room = push_state(alloc, &mut self.text, names, self.room, goal)?;
        Ok(())
    }
}

//! The turns of a theory that runs.
ghost use Rattle.std.specs.Prelude.{◌≡◌, ◌<◌, ◌≤◌, ◌+◌, ◌-◌, ◌++◌, ◌∷◌, ℕ, List, [], length, vec_len, vec_capacity, Some, IfOk, OnErr, slice_get};
ghost use Rattle.std.specs.VecDeque.{deque_len};
ghost use Rattle.pure_script.specs.Seen.{seen_command, seen_commands};
ghost use Rattle.pure_session.specs.Waiting.{seen_loaded};
ghost use Rattle.pure_session_meaning.specs.Declare.Notes as notes;
ghost use Rattle.pure_session_meaning.specs.Declare.Seen.{seen_note, seen_notes};
ghost use Rattle.pure_session_meaning.specs.Declare.Fold.{Declares};
ghost use Rattle.pure_session_meaning.specs.Verdicts.{IsTheoryAt};
ghost use Rattle.pure_session_meaning.specs.Given.{IsNextGiven};
ghost use Rattle.pure_theory_run.specs.Outline as outline;
ghost use Rattle.pure_theory_run.specs.Outline.{row_of};
ghost use Rattle.pure_theory_run.specs.Runs.{IsGoing, IsRunOf, IsSameGoing, IsSameRun};
ghost use Rattle.pure_theory_run.specs.Turns.{turn_of, HandsOut, IsGoingTurn, IsTurn};
ghost use Rattle.pure_theory_run.specs.declared.run.Turn.TheVariants as turns;

use crate::checker::Checker;
use crate::closed::Closed;
use crate::parts::command_parts;
use crate::run::{Going, Run, Standing, Turn};
use pure_print::Row;
use pure_script::Command;
use pure_session::Loaded;
use pure_session_meaning::declare::{Declared, Duty, Note, declare};
use pure_session_meaning::theory::Stage;
use pure_typ::Label;
use std::alloc::{AllocError, Global};
use std::collections::VecDeque;
use std::mem;
use std::sync::Arc;

/// A theory that was refused when it began closes with its row.
fn barred_turn(alloc: Global, row: &Row) -> Result<Turn, AllocError>
    ensures { IfOk result (λ turn. turn ≡ turns.Closed (outline.Barred row.now)) }
{
    let row = row.copy(alloc)?;
    Ok(Turn::Closed {
        closed: Closed::barred(row),
    })
}

/// A theory that has nothing left closes with its rows and its last stage.
fn last_turn(alloc: Global, going: &mut Going) -> Result<Turn, AllocError>
    ensures turn { IfOk result (λ turn. turn ≡ turns.Closed (outline.Ran going.old.rows.items going.old.now.value)) }
    ensures keeps { OnErr result (IsSameGoing going.old going.new) }
{
    let last = Arc::try_clone(&going.now)?;
    let rows = mem::replace(&mut going.rows, Vec::new(alloc));
    Ok(Turn::Closed {
        closed: Closed::ran(rows, last),
    })
}

/// The command of the duty's label.
fn command_of(duty: &Duty) -> u32
    ensures { result ≡ duty.now.label.command }
{
    duty.label.command
}

/// Puts the row that a note is, or a hole for that of a lemma or have, where place was taken for it.
fn put_note(rows: &mut Vec<Option<Row>>, note: Note) -> Turn
    requires { vec_len rows.old < vec_capacity rows.old }
    ensures rows { rows.new.items ≡ rows.old.items ++ row_of (seen_note note) ∷ [] }
    ensures turn { result ≡ turn_of (seen_note note) }
{
    match note {
        Note::Row { row } => {
            rows.push_reserved(Some(row));
            Turn::Declared
        }
        Note::Forked { duty } => {
            rows.push_reserved(None);
            let command = command_of(&duty);
            Turn::Forked {
                command,
                goal: duty,
            }
        }
    }
}

/// Hands out the first of the notes that wait, where place was taken for its row.
fn next_note(going: &mut Going) -> Turn
    requires some { 0 < deque_len going.old.waiting }
    requires place { vec_len going.old.rows < vec_capacity going.old.rows }
    ensures { HandsOut going.old going.new result }
{
    let Some(note) = going.waiting.pop_front() else {
        unreachable!()
    };
    put_note(&mut going.rows, note)
}

/// Hands out the first of the notes that wait. Place for its row is taken first, so that no note is lost where memory is wanted.
fn hand_out(going: &mut Going) -> Result<Turn, AllocError>
    requires { 0 < deque_len going.old.waiting }
    ensures turn { IfOk result (HandsOut going.old going.new) }
    ensures keeps { OnErr result (IsSameGoing going.old going.new) }
{
    going.rows.reserve(1)?;
    Ok(next_note(going))
}

/// The notes of one command more, which has so many parts, wait, and the stage behind them is next.
fn go_on(going: &mut Going, parts: usize, declared: Declared)
    requires left { 0 < going.old.left }
    requires parts { parts ≤ going.old.parts }
    ensures rows { going.new.rows ≡ going.old.rows }
    ensures now { going.new.now.value ≡ declared.stage.value }
    ensures left { going.new.left + 1 ≡ going.old.left }
    ensures parts { going.new.parts + parts ≡ going.old.parts }
    ensures waiting { going.new.waiting.items ≡ declared.notes.items }
    ensures count { deque_len going.new.waiting ≡ vec_len declared.notes }
{
    let Declared { stage, notes } = declared;
    going.now = stage;
    going.left -= 1;
    going.parts -= parts;
    going.waiting = VecDeque::from(notes);
}

/// The place of the theory's next command, where so many are left.
fn next_place(theory: &Loaded, left: u32) -> usize
    requires { left ≤ length theory.now.text.commands.items }
    ensures { result ≡ length theory.now.text.commands.items - left }
{
    theory.text.commands.len() - left as usize
}

impl Checker {
    /// What a command of the theory declares over this stage.
    fn declared(
        &self,
        theory: &Loaded,
        command: &Command,
        stage: &Stage,
        label: Label,
    ) -> Result<Declared, AllocError>
        requires { IsNextGiven self.now.texts theory.now.source stage.now.value label (seen_command command.now) }
        ensures { IfOk result (λ d. Declares self.now.texts theory.now.source label stage.now.value (seen_command command.now) (seen_notes d.notes.items) d.stage.value) }
    {
        let names = self.names();
        let source = theory.source.bytes();
        let declared = declare(self.alloc, stage, names, source, command, label)?;
        Ok(declared)
    }

    /// A turn by the theory's next command, which hands out the first of its notes.
    fn command_turn(
        &self,
        index: u32,
        theory: &Loaded,
        command: &Command,
        going: &mut Going,
    ) -> Result<Turn, AllocError>
        requires runs { (past : List notes.Note) × IsGoing self.now.texts self.now.theories index past going.old }
        requires none { deque_len going.old.waiting ≡ 0 }
        requires theory { IsTheoryAt self.now.theories index (seen_loaded theory.now) }
        requires command { slice_get (seen_commands theory.now.text.commands.items) (length (seen_commands theory.now.text.commands.items) - going.old.left) ≡ Some (seen_command command.now) }
        ensures turn { IfOk result (λ turn. (past : List notes.Note) → IsGoing self.now.texts self.now.theories index past going.old → IsGoingTurn self.now.texts self.now.theories index past going.old going.new turn) }
        ensures keeps { OnErr result (IsSameGoing going.old going.new) }
    {
        self.is_loaded_session();
        let place = next_place(theory, going.left) as u32;
        let label = Label {
            theory: index,
            command: place,
            part: 0,
        };
        going.rows.reserve(1)?;
        let declared = self.declared(theory, command, &going.now, label)?;
        go_on(going, command_parts(command), declared);
        Ok(next_note(going))
    }

    /// A turn where no note waits: by the next command, or, where none is left, the last one.
    fn next_turn(&self, index: u32, going: &mut Going) -> Result<Turn, AllocError>
        requires runs { (past : List notes.Note) × IsGoing self.now.texts self.now.theories index past going.old }
        requires none { deque_len going.old.waiting ≡ 0 }
        ensures turn { IfOk result (λ turn. (past : List notes.Note) → IsGoing self.now.texts self.now.theories index past going.old → IsGoingTurn self.now.texts self.now.theories index past going.old going.new turn) }
        ensures keeps { OnErr result (IsSameGoing going.old going.new) }
    {
        let theory = self.theory(index);
        match theory.text.commands.get(next_place(theory, going.left)) {
            None => last_turn(self.alloc, going),
            Some(command) => self.command_turn(index, theory, command, going),
        }
    }

    /// A turn of a theory that wasn't refused when it began: by a note that waits, or else by what comes next.
    fn going_turn(&self, index: u32, going: &mut Going) -> Result<Turn, AllocError>
        requires { (past : List notes.Note) × IsGoing self.now.texts self.now.theories index past going.old }
        ensures turn { IfOk result (λ turn. (past : List notes.Note) → IsGoing self.now.texts self.now.theories index past going.old → IsGoingTurn self.now.texts self.now.theories index past going.old going.new turn) }
        ensures keeps { OnErr result (IsSameGoing going.old going.new) }
    {
        if going.waiting.is_empty() {
            return self.next_turn(index, going);
        }
        hand_out(going)
    }

    /// One turn of a run that hasn't closed: the next note of its theory's commands, or, where none is left, what the theory leaves.
    ///
    /// # Errors
    ///
    /// Want of memory alone; the run is as it was then.
    pub fn command(&self, run: &mut Run) -> Result<Turn, AllocError>
        requires { (index : ℕ) × (past : List notes.Note) × IsRunOf self.now.texts self.now.theories index past run.old }
        ensures turn { IfOk result (λ turn. (index : ℕ) (past : List notes.Note) → IsRunOf self.now.texts self.now.theories index past run.old → IsTurn self.now.texts self.now.theories index past run.old run.new turn) }
        ensures keeps { OnErr result (IsSameRun run.old run.new) }
    {
        let index = run.index;
        match &mut run.standing {
            Standing::Barred { row } => barred_turn(self.alloc, row),
            Standing::Going { going } => self.going_turn(index, going),
        }
    }
}

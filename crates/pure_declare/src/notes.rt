//! What commands leave: a row, or a lemma whose proof is still to be given.
ghost use Rattle.std.specs.Prelude.{◌≡◌, [], ◌∷◌, ◌++◌, IfOk, OnOk};
ghost use Rattle.pure_declare.specs.Seen.{seen_note, seen_notes};

use crate::fixing::fixed_again;
use pure_print::Row;
use pure_script::Step;
use pure_term::Term;
use pure_theory::Stage;
use pure_typ::{Label, Name};
use std::alloc::{AllocError, Global};
use std::marker::Model;
use std::sync::Arc;

/// A statement that is bound before its proof is run: its label and name, the name of the lemma that it is or stands in, the stage before it, the statement, generalised, and the steps of its proof. The statement is shared with the stage behind it; the one with fixed variables, of which the proof is, is made of it where it is asked for.
#[derive(Drop)]
pub struct Duty {
    pub label: Label,
    pub name: Name,
    pub lemma: Name,
    pub stage: Stage,
    pub prop: Arc<Term>,
    pub script: Vec<Step>,
}

impl Model for Duty {
    ghost use Rattle.pure_declare.specs.Codes.{coded_fork};
    ghost use Rattle.pure_declare.specs.Fixing.{fixed_again};
    ghost use Rattle.pure_declare.specs.Notes.{Fork};
    ghost use Rattle.pure_script.specs.Seen.{seen_steps};

    ghost Value = { Fork };

    ghost coded = { coded_fork };

    ghost view = { λ d. record { label = d.label; name = d.name; lemma = d.lemma; content = d.stage.value; fixed = fixed_again d.prop.value; prop = d.prop.value; script = seen_steps d.script.items } };
}

impl Duty {
    /// The statement with fixed variables, of which the proof is.
    ///
    /// # Errors
    ///
    /// Want of memory alone.
    pub fn fixed(&self, alloc: Global) -> Result<Term, AllocError>
        ensures { IfOk result (λ t. t ≡ self.now.fixed) }
    {
        fixed_again(alloc, &self.prop)
    }
}

/// What a command leaves in the table: a row, or a lemma whose row its proof gives.
#[derive(Drop)]
pub enum Note {
    Row { row: Row },
    Forked { duty: Duty },
}

/// What comes of one part of a command: what it leaves in the table, and the next stage.
#[derive(Drop)]
pub(crate) struct PartOutcome {
    pub(crate) stage: Stage,
    pub(crate) note: Note,
}

/// What comes of a command: what its parts leave in the table, in the order of the rows, and the next stage.
#[derive(Drop)]
pub struct Declared {
    pub stage: Stage,
    pub notes: Vec<Note>,
}

impl PartOutcome {
    /// The outcome of a command that is this part alone.
    pub(crate) fn alone(self, alloc: Global) -> Result<Declared, AllocError>
        ensures notes { IfOk result (λ d. seen_notes d.notes.items ≡ seen_note self.note ∷ []) }
        ensures next { IfOk result (λ d. d.stage.value ≡ self.stage.value) }
    {
        let PartOutcome { stage, note } = self;
        let mut notes = Vec::with_capacity(alloc, 1)?;
        notes.push(note)?;
        Ok(Declared { stage, notes })
    }
}

impl Declared {
    /// Nothing so far, at this stage.
    pub(crate) fn nothing(alloc: Global, stage: &Stage) -> Result<Declared, AllocError>
        ensures notes { IfOk result (λ d. seen_notes d.notes.items ≡ []) }
        ensures next { IfOk result (λ d. d.stage.value ≡ stage.now.value) }
    {
        let stage = Arc::try_clone(stage)?;
        let notes = Vec::new(alloc);
        Ok(Declared { stage, notes })
    }

    /// Goes on by what comes of one part more.
    pub(crate) fn put(&mut self, outcome: PartOutcome) -> Result<(), AllocError>
        ensures notes { OnOk result (seen_notes self.new.notes.items ≡ seen_notes self.old.notes.items ++ seen_note outcome.note ∷ []) }
        ensures next { OnOk result (self.new.stage.value ≡ outcome.stage.value) }
    {
        let PartOutcome { stage, note } = outcome;
        self.notes.push(note)?;
        self.stage = stage;
        Ok(())
    }
}

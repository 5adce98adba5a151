//! What stands before a row. No stage and no table of names is let go of, since to prove that anew in each function is dear.
use pure_declare::Note;
use pure_kernel::name_table;
use pure_rows::Fault;
use pure_theory::{Stage, Theory};
use pure_theory_tables::shared;
use pure_typ::NamesByBase;
use std::alloc::{AllocError, Global};
use std::mem;
use std::sync::Arc;

/// The names of the rows; the stages, of which the last is the present one, and the place among them from which those of the
/// last row stand; the source of the theory, and how much of it is read; and the numbers of the theory and of its next command.
#[derive(Drop)]
pub(crate) struct Kept {
    pub(crate) names: NamesByBase,
    pub(crate) stages: Vec<Stage>,
    pub(crate) first: usize,
    pub(crate) source: Vec<u8>,
    pub(crate) place: usize,
    pub(crate) theory: u32,
    pub(crate) command: u32,
}

impl Kept {
    /// No stage, and no names but Pure's.
    pub(crate) fn empty(alloc: Global) -> Result<Kept, AllocError> {
        let names = name_table(alloc, &[])?;
        Ok(Kept {
            names,
            stages: Vec::new(alloc),
            first: 0,
            source: Vec::new(alloc),
            place: 0,
            theory: 0,
            command: 0,
        })
    }

    /// Puts other names in.
    pub(crate) fn put_names(&mut self, names: NamesByBase) {
        mem::forget(mem::replace(&mut self.names, names));
    }

    /// The stages of the last row: those before its forks, and the present one.
    pub(crate) fn last_stages(&self) -> &[Stage] {
        &self.stages[self.first.min(self.stages.len())..]
    }
}

/// Puts the stage behind the others.
pub(crate) fn put(stages: &mut Vec<Stage>, stage: Stage) -> Result<(), Fault> {
    match stages.push(stage) {
        Ok(()) => Ok(()),
        Err(failed) => {
            mem::forget(failed);
            Err(Fault::Memory)
        }
    }
}

/// Puts the same stage behind the others.
fn put_again(stages: &mut Vec<Stage>, stage: &Stage) -> Result<(), Fault> {
    match Arc::try_clone(stage) {
        Ok(stage) => put(stages, stage),
        Err(_) => Err(Fault::Memory),
    }
}

/// Puts the stages before the forks behind the others.
pub(crate) fn put_forked(stages: &mut Vec<Stage>, notes: &[Note]) -> Result<(), Fault> {
    for note in notes {
        if let Note::Forked { duty } = note {
            put_again(stages, &duty.stage)?;
        }
    }
    Ok(())
}

/// Puts the theory behind the other stages.
pub(crate) fn keep(alloc: Global, stages: &mut Vec<Stage>, theory: Theory) -> Result<(), Fault> {
    match shared(alloc, theory) {
        Ok(stage) => put(stages, stage),
        Err(_) => Err(Fault::Memory),
    }
}

/// The present stage.
pub(crate) fn last_stage(stages: &[Stage]) -> Result<&Stage, Fault> {
    match stages.last() {
        Some(stage) => Ok(stage),
        None => Err(Fault::Unreadable),
    }
}

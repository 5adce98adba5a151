//! Theories that a row makes. None is let go of, since to prove that anew in each function is dear.
use crate::stop::Stop;
use pure_theory::{Stage, Theory};
use pure_theory_tables::shared;
use std::alloc::{AllocError, Global};
use std::mem;

/// Theories that a row makes, one declaration after another, and the last stage of each theory of its session.
#[derive(Drop)]
pub(crate) struct Kept {
    pub(crate) stages: Vec<Stage>,
    pub(crate) ends: Vec<Stage>,
}

impl Kept {
    /// No theories.
    pub(crate) fn empty(alloc: Global) -> Kept {
        Kept {
            stages: Vec::new(alloc),
            ends: Vec::new(alloc),
        }
    }
}

/// Puts the stage behind the others.
pub(crate) fn put(stages: &mut Vec<Stage>, stage: Result<Stage, AllocError>) -> Result<(), Stop> {
    match stage {
        Ok(stage) => match stages.push(stage) {
            Ok(()) => Ok(()),
            Err(failed) => {
                mem::forget(failed);
                Err(Stop::Memory)
            }
        },
        Err(_) => Err(Stop::Memory),
    }
}

/// Puts the theory behind the others.
pub(crate) fn keep(
    alloc: Global,
    stages: &mut Vec<Stage>,
    made: Result<Theory, Stop>,
) -> Result<(), Stop> {
    match made {
        Ok(theory) => put(stages, shared(alloc, theory)),
        Err(stop) => Err(stop),
    }
}

/// The last stage.
pub(crate) fn last_stage(stages: &[Stage]) -> Result<&Stage, Stop> {
    match stages.last() {
        Some(stage) => Ok(stage),
        None => Err(Stop::Unreadable),
    }
}

/// The last theory.
pub(crate) fn last(stages: &[Stage]) -> Result<&Theory, Stop> {
    match stages.last() {
        Some(stage) => Ok(&**stage),
        None => Err(Stop::Unreadable),
    }
}

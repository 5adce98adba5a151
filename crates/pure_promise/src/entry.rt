//! Lemmas with what became of them.
ghost use Rattle.pure_promise.specs.Joining.{IsTheorem};

use pure_goal_steps::StepFault;
use pure_method::theory::Cthm;
use pure_promise_fates::Reported;
use pure_term::{Label, Name, Term};
use std::sync::Arc;

/// What became of a lemma by itself: its proof came to a theorem, or a step of it failed, or it was cancelled.
#[derive(Drop)]
pub enum Own {
    Proved { result: Cthm },
    Fault { step: u32, fault: StepFault },
    Cancelled,
}

/// A lemma: the label of its promise, its name, its statement, and what became of it.
#[derive(Drop)]
pub struct Entry {
    pub label: Label,
    pub name: Name,
    pub prop: Arc<Term>,
    pub own: Own,
}

impl Reported for Entry {
    ghost use Rattle.pure_promise.specs.Seen.{reported};

    ghost entry = { reported };

    fn label(&self) -> Label {
        self.label
    }

    fn rests(&self) -> Option<&[Label]> {
        match &self.own {
            Own::Proved { result: proof } => Some(proof.thm().rests.as_slice()),
            Own::Fault { .. } => None,
            Own::Cancelled => None,
        }
    }

    fn is_fault(&self) -> bool {
        match &self.own {
            Own::Proved { .. } => false,
            Own::Fault { .. } => true,
            Own::Cancelled => false,
        }
    }
}

impl Entry {
    /// Its theorem, where it has one, is derivable in its theory.
    pub(crate) fn is_theorem(&self)
        ensures { IsTheorem self.now }
    {
        match &self.own {
            Own::Proved { result: proof } => {
                proof.theorem_is_derivable();
                proof.stage().content_is_sound();
            }
            Own::Fault { .. } => {}
            Own::Cancelled => {}
        }
    }
}

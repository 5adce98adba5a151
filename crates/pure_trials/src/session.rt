//! A session of lemmas, of each of which it is known whether its proof fails.
ghost use Rattle.std.specs.Prelude.{◌≡◌};

use pure_core::{Node, Turn, Work};
use pure_watch::Watch;
use std::alloc::{AllocError, Global};
use std::sync::Arc;

/// Theories by the numbers of their parents, and for each whether the proofs of its lemmas fail, the last lemma first.
#[derive(Drop)]
pub struct Session {
    pub shape: Vec<Node>,
    pub lemmas: Vec<Vec<bool>>,
}

/// The lemmas of a theory that are still to be forked, the last first, and how many were forked.
#[derive(Drop)]
pub struct Lemmas {
    pub left: Vec<bool>,
    pub forked: u32,
}

/// A proof with so many steps before its last.
#[derive(Drop)]
pub struct Proof {
    pub steps: u32,
}

impl Work for Session {
    ghost use Rattle.std.specs.Prelude.{ℕ, List, Bool, length};

    type Goal = bool;

    type Closed = u32;

    type Outcome = bool;

    type Run = Lemmas;

    type Proving = Proof;

    ghost shape = { λ s. s.shape.items };

    ghost forks = { λ s i n c g. Unit {0} };

    ghost closes = { λ s i n c. Unit {0} };

    ghost may = { λ s g o. Unit {0} };

    ghost faults = { λ s o. o };

    ghost runs = { λ s i n r. Unit {0} };

    ghost turns_left = { λ r. length r.left.items };

    ghost proves = { λ s g p. Unit {0} };

    ghost steps_left = { λ p. p.steps };

    fn begin(&self, theory: u32, _parents: &[Arc<u32>]) -> Result<Lemmas, AllocError> {
        let place = (theory as usize).saturating_sub(1);
        match self.lemmas.get(place) {
            None => Err(AllocError),
            Some(lemmas) => Ok(Lemmas {
                left: lemmas.clone()?,
                forked: 0,
            }),
        }
    }

    fn command(&self, run: &mut Lemmas) -> Result<Turn<bool, u32>, AllocError> {
        let command = run.forked;
        run.forked = command.wrapping_add(1);
        match run.left.pop() {
            None => Ok(Turn::Closed { closed: 7 }),
            Some(goal) => Ok(Turn::Forked { command, goal }),
        }
    }

    fn start(&self, _goal: &bool) -> Result<Proof, AllocError> {
        Ok(Proof { steps: 2 })
    }

    fn advance<V: Watch>(
        &self,
        goal: &bool,
        proving: &mut Proof,
        _watch: &V,
    ) -> Result<Option<bool>, AllocError> {
        if proving.steps == 0 {
            return Ok(Some(*goal));
        }
        proving.steps = proving.steps - 1;
        Ok(None)
    }

    fn is_fault(&self, outcome: &bool) -> bool {
        *outcome
    }
}

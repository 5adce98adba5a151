//! The session as a work: its theories fork their lemmas, and each lemma's proof is run.
ghost use Rattle.std.specs.Prelude.{◌≡◌};
ghost use Rattle.pure_check_work.specs.Turns.{core_turn};
ghost use Rattle.pure_check_work.specs.Relations.{is_fault};

use crate::attempt::Attempt;
use crate::checking::Checking;
use pure_core::{Turn, Work};
use pure_table::declare::Duty;
use pure_table::method::Outcome;
use pure_table::theory_run::{Closed, Run};
use pure_watch::Watch;
use std::alloc::AllocError;
use std::sync::Arc;

/// The turn as the core takes it.
fn turn_of(turn: pure_table::theory_run::Turn) -> Turn<Duty, Closed>
    ensures { result ≡ core_turn turn }
{
    match turn {
        pure_table::theory_run::Turn::Declared => Turn::Declared,
        pure_table::theory_run::Turn::Forked { command, goal } => Turn::Forked { command, goal },
        pure_table::theory_run::Turn::Closed { closed } => Turn::Closed { closed },
    }
}

/// Whether the outcome is a fault.
fn is_fault(outcome: &Outcome) -> bool
    ensures { result ≡ is_fault outcome.now }
{
    match outcome {
        Outcome::Proved { .. } => false,
        Outcome::Fault { .. } => true,
    }
}

impl Work for Checking {
    ghost use Rattle.pure_table.specs.TheoryRun.Runs.{turns_left};
    ghost use Rattle.pure_table.specs.Method.Outcome.{IsOutcomeOf};
    ghost use Rattle.pure_check_work.specs.Relations.{shape_of, ForksAfter, ClosesAfter, RunsAfter, is_fault};
    ghost use Rattle.pure_check_work.specs.Attempts.{Attempts};

    type Goal = Duty;

    type Closed = Closed;

    type Outcome = Outcome;

    type Run = Run;

    type Proving = Attempt;

    ghost shape = { λ c. shape_of c.theories };

    ghost forks = { λ c i n m f. ForksAfter c.texts c.theories i n m f };

    ghost closes = { λ c i n o. ClosesAfter c.texts c.theories i n o };

    ghost may = { λ c f o. IsOutcomeOf c.texts f o };

    ghost faults = { λ c o. is_fault o };

    ghost runs = { λ c i n r. RunsAfter c.texts c.theories i n r };

    ghost turns_left = { λ r. turns_left r };

    ghost proves = { λ c f a. Attempts c.texts f a };

    ghost steps_left = { λ a. a.left };

    fn begin(&self, theory: u32, parents: &[Arc<Closed>]) -> Result<Run, AllocError> {
        let run = self.checker().begin(theory, parents)?;
        Ok(run)
    }

    fn command(&self, run: &mut Run) -> Result<Turn<Duty, Closed>, AllocError> {
        let turn = self.checker().command(run)?;
        Ok(turn_of(turn))
    }

    fn start(&self, goal: &Duty) -> Result<Attempt, AllocError> {
        self.is_loaded_session();
        let attempt = Attempt::start(self.alloc, self.names(), goal)?;
        Ok(attempt)
    }

    fn advance<V: Watch>(
        &self,
        goal: &Duty,
        proving: &mut Attempt,
        watch: &V,
    ) -> Result<Option<Outcome>, AllocError> {
        let outcome = proving.advance(self.alloc, self.names(), goal, watch)?;
        Ok(outcome)
    }

    fn is_fault(&self, outcome: &Outcome) -> bool {
        is_fault(outcome)
    }
}

//! Goals at their end.
ghost use Rattle.std.specs.Prelude.{◌≡◌, [], IfOk, IfErr, Ok, Err, IsTrue};
ghost use Rattle.pure_logic.specs.Derivable.{Theorem, IsDerivable};
ghost use Rattle.pure_theorem.specs.Facts.{IsTheoryContent};
ghost use Rattle.pure_resolve.specs.Goals.{IsGoalTheorem};
ghost use Rattle.pure_resolve.specs.Ending.{IsMarked, IsUnmarked, IsEnd};

use crate::state::Goal;
use pure_goal_steps::StepFault;
use pure_goal_steps::pairs::smash;
use pure_term::{Grow, is_within};
use pure_theorem::{Base, Thm, as_application, copied_pairs, copied_terms};
use std::alloc::{AllocError, Global};

/// The theorem of what is marked.
fn unmarked(alloc: Global, th: &Thm) -> Result<Thm, AllocError>
    requires { IsMarked th.now }
    ensures { IfOk result (IsUnmarked th.now) }
{
    let Some((_, statement)) = as_application(&th.prop) else {
        unreachable!();
    };
    let hyps = copied_terms(alloc, &th.hyps)?;
    let pairs = copied_pairs(alloc, &th.pairs)?;
    let prop = statement.copy(alloc)?;
    let rests = Vec::from_slice(alloc, &th.rests)?;
    Ok(Thm {
        hyps,
        pairs,
        prop,
        rests,
    })
}

/// Lets the theorem go.
fn discard(_th: Thm) {}

/// The theorem of what is marked, in place of the theorem.
fn end_statement(alloc: Global, th: Thm) -> Result<Thm, AllocError>
    requires { IsMarked th }
    ensures { IfOk result (IsUnmarked th) }
{
    let statement = unmarked(alloc, &th);
    discard(th);
    statement
}

/// Whether the theorem has no pairs.
fn has_no_pairs(th: &Thm) -> bool
    ensures { IsTrue result → th.now.pairs ≡ [] }
{
    match th.pairs.as_slice().split_first() {
        None => true,
        Some(_) => false,
    }
}

impl Goal {
    /// The theorem that a goal without subgoals proves: its pairs are smashed, and its statement is opened.
    ///
    ///      |- # C
    ///     --------
    ///      |- C
    ///
    /// # Errors
    ///
    /// `SubgoalsLeft` exactly where there is a subgoal; `Big` where the theorem with its pairs smashed isn't within the limits.
    pub fn finish<B: Base>(&self, alloc: Global, thy: &B) -> Result<Thm, StepFault>
        requires { IsGoalTheorem self.now.thm }
        ensures answer { IsEnd self.now.thm result }
        ensures derivable { let Q = B.content thy.now in IsTheoryContent Q → IsDerivable Q self.now.thm → IfOk result (IsDerivable Q) }
    {
        if self.subgoals() != 0 {
            return Err(StepFault::SubgoalsLeft);
        }
        match smash(alloc, thy, &self.thm) {
            Ok(smashed) => Ok(end_statement(alloc, smashed)?),
            Err(Grow::Big) => Err(StepFault::Big),
            Err(Grow::Memory) => Err(StepFault::Memory),
        }
    }

    /// Whether the goal proves a theorem, which isn't made here where there are no pairs.
    ///
    /// # Errors
    ///
    /// As in `finish`.
    pub fn check_end<B: Base>(&self, alloc: Global, thy: &B) -> Result<(), StepFault>
        requires { IsGoalTheorem self.now.thm }
        ensures proves { IfOk result (λ _. (th : Theorem) × IsEnd self.now.thm (Ok th)) }
        ensures fault { IfErr result (λ fault. IsEnd self.now.thm (Err fault)) }
    {
        if self.subgoals() != 0 {
            return Err(StepFault::SubgoalsLeft);
        }
        if !has_no_pairs(&self.thm) {
            return self.check_smashed(alloc, thy);
        }
        if !is_within(&self.thm.prop) {
            return Err(StepFault::Big);
        }
        Ok(())
    }

    /// The same by making the theorem.
    fn check_smashed<B: Base>(&self, alloc: Global, thy: &B) -> Result<(), StepFault>
        requires { IsGoalTheorem self.now.thm }
        ensures proves { IfOk result (λ _. (th : Theorem) × IsEnd self.now.thm (Ok th)) }
        ensures fault { IfErr result (λ fault. IsEnd self.now.thm (Err fault)) }
    {
        match self.finish(alloc, thy) {
            Ok(th) => {
                discard(th);
                Ok(())
            }
            Err(fault) => Err(fault),
        }
    }
}

//! Subgoals in another order.
ghost use Rattle.std.specs.Prelude.{◌≡◌, ◌∷◌, ◌++◌, [], List, length, IfOk};
ghost use Rattle.pure_text.specs.Lists.{Each};
ghost use Rattle.pure_definitions.specs.Terms.Term as tree;
ghost use Rattle.pure_logic.specs.Connectives.{chain, protect};
ghost use Rattle.pure_logic.specs.Derivable.{IsDerivable};
ghost use Rattle.pure_theorem.specs.Facts.{IsTheoryContent};
ghost use Rattle.pure_goal_steps.specs.Steps.{PreferStep, DeferStep};
ghost use Rattle.pure_resolve.specs.Goals.{IsGoalTheorem, IsLeftTyped, IsConcluded, IsStep};
ghost use Rattle.pure_resolve.specs.Premises.{implied_by};

use crate::close::within_limits;
use crate::shared::{Taken, first_premise, taken_at, with_last};
use crate::state::{Goal, has_premises};
use pure_goal_steps::StepFault;
use pure_term::Term;
use pure_theorem::{Base, Thm, copied_pairs};
use std::alloc::{AllocError, Global};
use std::sync::Arc;

/// The goal of this proposition, with the theorem's pairs and what it rests on.
fn with_proposition(alloc: Global, th: &Thm, prop: Term) -> Result<Goal, StepFault>
    requires { Each IsLeftTyped th.now.pairs }
    ensures { IsConcluded th.now.pairs prop th.now.rests result }
{
    let pairs = copied_pairs(alloc, &th.pairs)?;
    let rests = Vec::from_slice(alloc, &th.rests)?;
    within_limits(alloc, prop, pairs, rests)
}

/// The goal's proposition with the premise at this place before the others.
fn preferred(alloc: Global, t: &Term, place: usize) -> Result<Term, AllocError>
    ensures { (front : List tree.Term) → (A : tree.Term) → (others : List tree.Term) → (C : tree.Term) → t.now ≡ chain (front ++ A ∷ others) (protect C) → place ≡ length front → IfOk result (λ u. u ≡ chain (A ∷ (front ++ others)) (protect C)) }
{
    let Taken { first, rest } = taken_at(alloc, t, place)?;
    Ok(Term::app(first, rest))
}

/// The goal's proposition with its first premise behind the others, from its parts.
fn deferred(alloc: Global, first: &Arc<Term>, rest: &Arc<Term>) -> Result<Term, AllocError>
    ensures { (A : tree.Term) → (others : List tree.Term) → (C : tree.Term) → first.now.value ≡ implied_by A → rest.now.value ≡ chain others (protect C) → IfOk result (λ u. u ≡ chain (others ++ A ∷ []) (protect C)) }
{
    let whole = with_last(alloc, rest, first)?;
    whole.copy(alloc)
}

impl Goal {
    /// The goal with subgoal n, counted from 1, before the others, which keep their order. What stands behind it is shared, and so is each of those in front, with what applies the connective to it.
    ///
    /// # Errors
    ///
    /// `NoSubgoal` exactly where there is no such subgoal; `Big` where the new goal isn't within the limits.
    pub fn prefer<B: Base>(&self, alloc: Global, _thy: &B, n: u32) -> Result<Goal, StepFault>
        requires { IsGoalTheorem self.now.thm }
        ensures answer { IsStep (λ s. PreferStep s n) self.now.thm (λ rests. rests ≡ self.now.thm.rests) result }
        ensures derivable { let Q = B.content _thy.now in IsTheoryContent Q → IsDerivable Q self.now.thm → IfOk result (λ new. IsDerivable Q new.thm) }
    {
        if n == 0 {
            return Err(StepFault::NoSubgoal);
        }
        if !has_premises(&self.thm.prop, n) {
            return Err(StepFault::NoSubgoal);
        }
        let prop = preferred(alloc, &self.thm.prop, n as usize - 1)?;
        with_proposition(alloc, &self.thm, prop)
    }

    /// The goal with its first subgoal behind the others. Each of these is shared, with what applies the connective to it.
    ///
    /// # Errors
    ///
    /// `NoSubgoal` exactly where there is none; `Big` where the new goal isn't within the limits.
    pub fn defer<B: Base>(&self, alloc: Global, _thy: &B) -> Result<Goal, StepFault>
        requires { IsGoalTheorem self.now.thm }
        ensures answer { IsStep DeferStep self.now.thm (λ rests. rests ≡ self.now.thm.rests) result }
        ensures derivable { let Q = B.content _thy.now in IsTheoryContent Q → IsDerivable Q self.now.thm → IfOk result (λ new. IsDerivable Q new.thm) }
    {
        let Some((first, rest)) = first_premise(&self.thm.prop) else {
            return Err(StepFault::NoSubgoal);
        };
        let prop = deferred(alloc, first, rest)?;
        with_proposition(alloc, &self.thm, prop)
    }
}

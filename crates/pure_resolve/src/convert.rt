//! A goal's first subgoal converted by an equation.
ghost use Rattle.std.specs.Prelude.{◌++◌, IfOk};
ghost use Rattle.pure_text.specs.Lists.{Each};
ghost use Rattle.pure_logic.specs.Derivable.{IsDerivable};
ghost use Rattle.pure_theorem.specs.Facts.{IsTheoryContent};
ghost use Rattle.pure_theorem.specs.Sets.{label_cmp, IsSetOf};
ghost use Rattle.pure_goal_steps.specs.Steps.{ConversionStep};
ghost use Rattle.pure_resolve.specs.Goals.{IsGoalTheorem, IsLeftTyped, IsEquationFor, IsUnited, IsStep};

use crate::begin::long_subgoal;
use crate::close::{with_first, within_limits};
use crate::state::Goal;
use pure_goal_steps::StepFault;
use pure_term::Term;
use pure_theorem::{Base, Thm, as_equation, copied_pairs, united_labels};
use std::alloc::{AllocError, Global};

/// The goal of this proposition, with the theorem's pairs, which rests on what the theorem and the fact rest on.
fn united_goal(alloc: Global, th: &Thm, fact: &Thm, prop: Term) -> Result<Goal, StepFault>
    requires { Each IsLeftTyped th.now.pairs }
    ensures { IsUnited th.now fact.now prop result }
{
    let pairs = copied_pairs(alloc, &th.pairs)?;
    let rests = united_labels(alloc, &th.rests, &fact.rests)?;
    within_limits(alloc, prop, pairs, rests)
}

impl Goal {
    /// The goal with the equation's right side, in long form, for its first subgoal, which is the left side. What stands behind that is shared.
    ///
    /// # Errors
    ///
    /// `Steps` where the right side has too many beta steps; `Big` where its long form, or the goal, isn't within the limits.
    pub fn convert<B: Base>(&self, alloc: Global, _thy: &B, eq: &Thm) -> Result<Goal, StepFault>
        requires goal { IsGoalTheorem self.now.thm }
        requires equation { IsEquationFor self.now.thm eq.now }
        ensures answer { IsStep (λ s. ConversionStep s eq.now) self.now.thm (IsSetOf label_cmp (self.now.thm.rests ++ eq.now.rests)) result }
        ensures derivable { let Q = B.content _thy.now in IsTheoryContent Q → IsDerivable Q self.now.thm → IsDerivable Q eq.now → IfOk result (λ new. IsDerivable Q new.thm) }
    {
        let Some((_, _, right)) = as_equation(&eq.prop) else {
            unreachable!();
        };
        let long = match long_subgoal(alloc, right) {
            Ok(long) => long,
            Err(fault) => return Err(fault),
        };
        let prop = with_first(alloc, &self.thm.prop, long)?;
        united_goal(alloc, &self.thm, eq, prop)
    }
}

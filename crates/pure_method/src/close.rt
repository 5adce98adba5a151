//! Subgoals closed by assumption.
ghost use Rattle.std.specs.Prelude.{IfOk, MatchOption};
ghost use Rattle.pure_definitions.specs.Declarations.Decl.{algebra_of};
ghost use Rattle.pure_unify_laws.specs.Condition.{IsUnifyContent};
ghost use Rattle.pure_resolve.specs.Uses.{MayStep};
ghost use Rattle.pure_method.specs.Closing.{CannotAssume, IsAssumed, IsClosed};

use crate::step::assumed;
use pure_declare::theory::Theory;
use pure_resolve::Goal;
use pure_resolve::goal_steps::StepFault;
use pure_watch::Watch;
use std::alloc::{AllocError, Global};

/// The goal without its first subgoal, where that is proved by assumption.
fn one_closed<W: Watch>(
    alloc: Global,
    theory: &Theory,
    goal: &Goal,
    watch: &W,
) -> Result<Option<Goal>, AllocError>
    requires content { IsUnifyContent theory.now }
    requires goal { MayStep theory.now goal.now.thm }
    ensures { IfOk result (λ next. MatchOption next (CannotAssume theory.now goal.now.thm) (λ new. IsAssumed theory.now goal.now.thm new.thm)) }
{
    match assumed(alloc, theory, goal, watch) {
        Ok(new) => Ok(Some(new)),
        Err(StepFault::Memory) => Err(AllocError),
        Err(_) => Ok(None),
    }
}

/// The goal without its first subgoals, as long as they are proved by assumption.
pub fn closed<W: Watch>(
    alloc: Global,
    theory: &Theory,
    goal: Goal,
    watch: &W,
) -> Result<Goal, AllocError>
    requires content { IsUnifyContent theory.now }
    requires goal { MayStep theory.now goal.thm }
    ensures { IfOk result (λ new. IsClosed theory.now goal.thm new.thm) }
{
    let mut now = goal;
    while let Some(next) = one_closed(alloc, theory, &now, watch)? {
        now = next;
    }
    Ok(now)
}

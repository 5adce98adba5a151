//! Calls on goals, and on theorems with pairs.
ghost use Rattle.pure_resolve.specs.Goals.{IsGoalTheorem};

use crate::answers::Answer;
use crate::asked::{is_equation_for, is_goal};
use pure_pairs::{drop_trivial, smash};
use pure_resolve::{Goal, StepFault, start};
use pure_term::{Grow, Label, Name, Term, typ_of};
use pure_theorem::{Base, Thm};
use std::alloc::Global;
use std::mem;

/// A theory in which nothing is declared.
struct Nothing;

impl Base for Nothing {
    ghost use Rattle.std.specs.Prelude.{[], None};

    ghost content = { λ _. record { declarations = []; own = None; ancestors = [] } };

    fn axiom_prop(&self, _name: Name) -> Option<&Term> {
        None
    }

    fn promise_prop(&self, _label: Label) -> Option<&Term> {
        None
    }
}

/// The theorem of a goal.
fn theorem_of(goal: Result<Goal, StepFault>) -> Answer {
    match goal {
        Ok(goal) => Ok(goal.thm),
        Err(fault) => Err(fault),
    }
}

/// The answer of a call that makes theorems, as that of a step.
fn grown(answer: Result<Thm, Grow>) -> Answer {
    match answer {
        Ok(th) => Ok(th),
        Err(Grow::Big) => Err(StepFault::Big),
        Err(Grow::Memory) => Err(StepFault::Memory),
    }
}

/// The goal for the statement; none where it has no type, so that none may be asked.
pub(crate) fn started(alloc: Global, statement: &Term) -> Option<Answer> {
    match typ_of(alloc, statement) {
        Ok(_) => Some(theorem_of(start(alloc, &Nothing, statement))),
        Err(_) => None,
    }
}

/// The goal converted by the equation; none where it is no equation for it.
fn converted(alloc: Global, goal: &Goal, eq: &Thm) -> Option<Answer>
    requires { IsGoalTheorem goal.now.thm }
{
    if !is_equation_for(alloc, &goal.thm, eq) {
        return None;
    }
    Some(theorem_of(goal.convert(alloc, &Nothing, eq)))
}

/// A call on a goal.
#[derive(Clone, Copy)]
pub(crate) enum Call<'e> {
    Prefer(u32),
    Defer,
    Finish,
    Convert(&'e Thm),
}

/// What the call on the goal answers.
fn of_goal(alloc: Global, call: Call<'_>, goal: &Goal) -> Option<Answer>
    requires { IsGoalTheorem goal.now.thm }
{
    match call {
        Call::Prefer(n) => Some(theorem_of(goal.prefer(alloc, &Nothing, n))),
        Call::Defer => Some(theorem_of(goal.defer(alloc, &Nothing))),
        Call::Finish => Some(goal.finish(alloc, &Nothing)),
        Call::Convert(eq) => converted(alloc, goal, eq),
    }
}

/// What the call on the goal of the theorem answers; none where it is none, so that it may not be asked.
pub(crate) fn on_goal(alloc: Global, call: Call<'_>, th: Thm) -> Option<Answer> {
    if !is_goal(alloc, &th) {
        mem::forget(th);
        return None;
    }
    let goal = Goal { thm: th };
    let answer = of_goal(alloc, call, &goal);
    mem::forget(goal);
    answer
}

/// The theorem with its pairs smashed.
pub(crate) fn smashed(alloc: Global, th: &Thm) -> Answer {
    grown(smash(alloc, &Nothing, th))
}

/// The theorem without the pairs of equal sides.
pub(crate) fn without_trivial(alloc: Global, th: &Thm) -> Answer {
    grown(drop_trivial(alloc, &Nothing, th))
}

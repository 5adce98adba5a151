//! What follows from an attempt to make a step.
ghost use Rattle.std.specs.Prelude.{◌≡◌, ◌++◌, IfOk};
ghost use Rattle.pure_text.specs.Lists.{Each};
ghost use Rattle.pure_definitions.specs.Declarations.Decl.{algebra_of};
ghost use Rattle.pure_logic.specs.Connectives.{chain};
ghost use Rattle.pure_logic.specs.Laws.Maps.{instantiated};
ghost use Rattle.pure_theorem.specs.Shapes.{IsTyped};
ghost use Rattle.pure_theorem.specs.Sets.{IsLabelSet};
ghost use Rattle.pure_unify_nodes.specs.SideAnswer.{AreSidesTyped};
ghost use Rattle.pure_unify.specs.Unified.{seen, IsUnified, IsLeftOver};
ghost use Rattle.pure_goal_steps.specs.State.{State};
ghost use Rattle.pure_goal_steps.specs.Follows as follows;
ghost use Rattle.pure_goal_rules.specs.Attempts.{seen_attempt};
ghost use Rattle.pure_resolve.specs.Goals.{IsConcluded, IsOutcome, IsOutcomeFrom, IsMadeFrom};
ghost use Rattle.pure_resolve.specs.Settled as settling;
ghost use Rattle.pure_resolve.specs.Settled.{HasFirst, HasLongFront, MayAttempt, IsBefore};

use crate::close::concluded;
use crate::open::{put_first, put_premises};
use crate::settle::{both_settled, instance_of};
use crate::state::Goal;
use crate::stay::{count_set, least_set};
use pure_goal_rules::Attempt;
use pure_goal_steps::StepFault;
use pure_inst::Ordered;
use pure_term::{Label, Term, TermMap, TypMap};
use pure_theorem::{Pair, Thm, as_implication, extend_pairs};
use pure_unify::{Unifier, UnifyFault, unify_while};
use pure_watch::Watch;
use std::alloc::Global;

/// The fault of a step that the unifier's is.
pub fn step_fault(fault: UnifyFault) -> StepFault
    ensures { result ≡ settling.step_fault fault }
{
    match fault {
        UnifyFault::NoUnifier => StepFault::NoUnifier,
        UnifyFault::SearchBound => StepFault::SearchBound,
        UnifyFault::Steps => StepFault::Steps,
        UnifyFault::Big => StepFault::Big,
        UnifyFault::Memory => StepFault::Memory,
    }
}

/// The unifier of what is matched and the goal's own pairs. That the watch broke the search off is told as want of memory.
pub fn unified<B: Ordered, W: Watch>(
    alloc: Global,
    thy: &B,
    goal: &Thm,
    matched: Vec<Pair>,
    maxidx: u32,
    watch: &W,
) -> Result<Unifier, UnifyFault>
    requires { Each AreSidesTyped (matched.items ++ goal.now.pairs) }
    ensures answer { IsUnified (algebra_of (B.content thy.now).declarations) maxidx (matched.items ++ goal.now.pairs) result }
    ensures left { IfOk result (λ u. Each IsLeftOver u.flexflex.items) }
{
    let mut pairs = matched;
    extend_pairs(alloc, &mut pairs, &goal.pairs)?;
    if maxidx > u32::MAX - 66 {
        return Err(UnifyFault::Memory);
    }
    match unify_while(alloc, thy.order(), &pairs, maxidx, watch) {
        Ok(Some(unifier)) => Ok(unifier),
        Ok(None) => Err(UnifyFault::Memory),
        Err(fault) => Err(fault),
    }
}

/// The goal of these subgoals, with the instance of the marked statement.
fn with_statement<B: Ordered>(
    alloc: Global,
    thy: &B,
    unifier: Unifier,
    subgoals: Vec<Term>,
    marked: Term,
    rests: Vec<Label>,
) -> Result<Goal, StepFault>
    requires left { Each IsLeftOver unifier.flexflex.items }
    requires set { IsLabelSet rests.items }
    ensures { IsConcluded unifier.flexflex.items (chain subgoals.items (instantiated unifier.typs unifier.terms marked)) rests.items result }
{
    let Unifier {
        typs,
        terms,
        flexflex,
    } = unifier;
    match instance_of(alloc, thy, &typs, &terms, marked) {
        Ok(statement) => concluded(alloc, subgoals, statement, flexflex, rests),
        Err(fault) => Err(fault),
    }
}

/// The goal with the new subgoals in place of the first, and the unifier put into all.
fn with_instances<B: Ordered>(
    alloc: Global,
    thy: &B,
    goal: &Thm,
    premises: Vec<Term>,
    unifier: Unifier,
    rests: Vec<Label>,
) -> Result<Goal, StepFault>
    requires goal { HasFirst goal.now }
    requires typed { Each IsTyped premises.items }
    requires left { Each IsLeftOver unifier.flexflex.items }
    requires set { IsLabelSet rests.items }
    ensures { IsMadeFrom goal.now premises.items (seen unifier) rests.items result }
{
    let Some((_, rest)) = as_implication(&goal.prop) else {
        unreachable!();
    };
    let mut others = Vec::new(alloc);
    let marked = put_premises(alloc, rest, &mut others)?;
    match both_settled(alloc, thy, &unifier.typs, &unifier.terms, premises, others) {
        Ok(subgoals) => with_statement(alloc, thy, unifier, subgoals, marked, rests),
        Err(fault) => Err(fault),
    }
}

/// The goal of these subgoals before the rest of the old goal as it stands, with the pairs that the unifier left.
fn with_rest(
    alloc: Global,
    unifier: Unifier,
    subgoals: Vec<Term>,
    rest: &Term,
    rests: Vec<Label>,
) -> Result<Goal, StepFault>
    requires left { Each IsLeftOver unifier.flexflex.items }
    requires set { IsLabelSet rests.items }
    ensures { IsConcluded unifier.flexflex.items (chain subgoals.items rest.now) rests.items result }
{
    let Unifier { flexflex, .. } = unifier;
    let rest = rest.copy(alloc)?;
    concluded(alloc, subgoals, rest, flexflex, rests)
}

/// The goal with the new subgoals and so many of the rest, the unifier put into them, before what is left of the old goal as it stands.
fn before_rest<B: Ordered>(
    alloc: Global,
    thy: &B,
    premises: Vec<Term>,
    rest: &Term,
    count: usize,
    unifier: Unifier,
    rests: Vec<Label>,
) -> Result<Goal, StepFault>
    requires typed { Each IsTyped premises.items }
    requires front { HasLongFront rest.now count }
    requires left { Each IsLeftOver unifier.flexflex.items }
    requires set { IsLabelSet rests.items }
    ensures { (made : State) → IsBefore unifier premises.items rest.now count made → IsOutcome (follows.Becomes made) (λ all. all ≡ rests.items) result }
{
    let mut front = Vec::new(alloc);
    let tail = put_first(alloc, rest, count, &mut front)?;
    match both_settled(alloc, thy, &unifier.typs, &unifier.terms, premises, front) {
        Ok(subgoals) => with_rest(alloc, unifier, subgoals, tail, rests),
        Err(fault) => Err(fault),
    }
}

/// The goal with the new subgoals in place of the first, and the unifier put into all. Behind the last subgoal in which it sets a variable the old goal is in long form and stays as it stands.
pub fn with_unifier<B: Ordered>(
    alloc: Global,
    thy: &B,
    goal: &Thm,
    premises: Vec<Term>,
    unifier: Unifier,
    rests: Vec<Label>,
) -> Result<Goal, StepFault>
    requires goal { HasFirst goal.now }
    requires typed { Each IsTyped premises.items }
    requires left { Each IsLeftOver unifier.flexflex.items }
    requires set { IsLabelSet rests.items }
    ensures { IsMadeFrom goal.now premises.items (seen unifier) rests.items result }
{
    let Some((_, rest)) = as_implication(&goal.prop) else {
        unreachable!();
    };
    let least = least_set(&unifier.typs, &unifier.terms);
    match count_set(&unifier.typs, &unifier.terms, least, rest) {
        Some(count) => before_rest(alloc, thy, premises, rest, count, unifier, rests),
        None => with_instances(alloc, thy, goal, premises, unifier, rests),
    }
}

/// What follows from the attempt on the goal.
pub fn followed<B: Ordered, W: Watch>(
    alloc: Global,
    thy: &B,
    goal: &Thm,
    attempt: Attempt,
    maxidx: u32,
    rests: Vec<Label>,
    watch: &W,
) -> Result<Goal, StepFault>
    requires goal { HasFirst goal.now }
    requires attempt { MayAttempt goal.now (seen_attempt attempt) }
    requires set { IsLabelSet rests.items }
    ensures { IsOutcomeFrom goal.now (λ s others. follows.FollowsBy (algebra_of (B.content thy.now).declarations) maxidx s others (seen_attempt attempt)) rests.items result }
{
    let Attempt { matched, premises } = attempt;
    match unified(alloc, thy, goal, matched, maxidx, watch) {
        Ok(unifier) => with_unifier(alloc, thy, goal, premises, unifier, rests),
        Err(fault) => Err(step_fault(fault)),
    }
}

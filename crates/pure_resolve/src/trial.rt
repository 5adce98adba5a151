//! Hypotheses tried one after the other.
ghost use Rattle.std.specs.Prelude.{◌≡◌, IfOk, ◌<◌, length, get_or, MatchBool, ◌≢◌};
ghost use Rattle.pure_definitions.specs.Declarations.Decl.{algebra_of};
ghost use Rattle.pure_text.specs.Lists.{Each};
ghost use Rattle.pure_theorem.specs.Sets.{IsLabelSet};
ghost use Rattle.pure_theorem.specs.Shapes.{IsTyped};
ghost use Rattle.pure_unify.specs.Unified.{seen, IsLeftOver};
ghost use Rattle.pure_goal_steps.specs.Reading as reading;
ghost use Rattle.pure_goal_steps.specs.Follows.{Becomes, with_unifier, FollowsBy, FollowsByFirst};
ghost use Rattle.pure_goal_rules.specs.Shown.{shown, seen_place};
ghost use Rattle.pure_resolve.specs.Goals.{IsOutcomeFrom};
ghost use Rattle.pure_resolve.specs.Settled.{HasFirst, MayAttempt};
ghost use Rattle.pure_resolve.specs.Uses.{attempted, attempts_from};

use crate::follow::{step_fault, unified, with_unifier};
use crate::state::Goal;
use pure_goal_rules::{
    Eliminator, Item, Spot, assumption_pairs, destruction_pairs, destruction_premises,
    elimination_pairs, elimination_premises,
};
use pure_goal_steps::StepFault;
use pure_inst::Ordered;
use pure_term::{Label, Term};
use pure_theorem::{Pair, Thm};
use pure_unify::Unifier;
use pure_watch::Watch;
use std::alloc::{AllocError, Global};

/// How a hypothesis is used: it is the conclusion, or a rule eliminates it, or destructs it.
#[derive(Clone, Copy)]
pub enum Use<'r> {
    Assume,
    Eliminate(Eliminator<'r>),
    Destruct(Eliminator<'r>),
}

/// A goal's first subgoal, read, and what a new goal rests on.
#[derive(Clone, Copy)]
pub struct Trial<'g, 't> {
    pub goal: &'g Thm,
    pub items: &'g [Item<'t>],
    pub conclusion: &'t Term,
    pub maxidx: u32,
    pub rests: &'g [Label],
}

/// The pairs that the use of the hypothesis has unified before those of the goal.
fn pairs_at(
    alloc: Global,
    items: &[Item],
    conclusion: &Term,
    used: &Use,
    spot: &Spot,
) -> Result<Vec<Pair>, AllocError>
    requires { shown items.now ≡ reading.around (seen_place spot.now) }
    ensures { IfOk result (λ ps. ps.items ≡ (attempted used.now conclusion.now (seen_place spot.now)).matched) }
{
    match used {
        Use::Assume => assumption_pairs(alloc, items, conclusion, spot),
        Use::Eliminate(rule) => elimination_pairs(alloc, items, conclusion, rule, spot),
        Use::Destruct(rule) => destruction_pairs(alloc, items, rule, spot),
    }
}

/// The new subgoals that the use of the hypothesis leaves.
fn premises_at(
    alloc: Global,
    items: &[Item],
    conclusion: &Term,
    used: &Use,
    spot: &Spot,
) -> Result<Vec<Term>, AllocError>
    requires { shown items.now ≡ reading.around (seen_place spot.now) }
    ensures { IfOk result (λ made. made.items ≡ (attempted used.now conclusion.now (seen_place spot.now)).premises) }
{
    match used {
        Use::Assume => Ok(Vec::new(alloc)),
        Use::Eliminate(rule) => elimination_premises(alloc, items, rule, spot),
        Use::Destruct(rule) => destruction_premises(alloc, items, conclusion, rule, spot),
    }
}

/// The goal that the unifier for the hypothesis at this place makes. Its new subgoals are made only now.
fn made_at<B: Ordered>(
    alloc: Global,
    thy: &B,
    trial: &Trial,
    used: &Use,
    spot: &Spot,
    unifier: Unifier,
) -> Result<Goal, StepFault>
    requires stands { shown trial.now.items.now ≡ reading.around (seen_place spot.now) }
    requires first { HasFirst trial.now.goal.now }
    requires typed { Each IsTyped (attempted used.now trial.now.conclusion.now (seen_place spot.now)).premises }
    requires left { Each IsLeftOver unifier.flexflex.items }
    requires set { IsLabelSet trial.now.rests.now }
    ensures { IsOutcomeFrom trial.now.goal.now (λ s others. Becomes (with_unifier s others (attempted used.now trial.now.conclusion.now (seen_place spot.now)) (seen unifier))) trial.now.rests.now result }
{
    let premises = premises_at(alloc, trial.items, trial.conclusion, used, spot)?;
    let rests = Vec::from_slice(alloc, trial.rests)?;
    with_unifier(alloc, thy, trial.goal, premises, unifier, rests)
}

/// What follows from the attempt to use the hypothesis at this place.
fn tried_at<B: Ordered, W: Watch>(
    alloc: Global,
    thy: &B,
    trial: &Trial,
    used: &Use,
    spot: &Spot,
    watch: &W,
) -> Result<Goal, StepFault>
    requires stands { shown trial.now.items.now ≡ reading.around (seen_place spot.now) }
    requires first { HasFirst trial.now.goal.now }
    requires may { MayAttempt trial.now.goal.now (attempted used.now trial.now.conclusion.now (seen_place spot.now)) }
    requires set { IsLabelSet trial.now.rests.now }
    ensures { IsOutcomeFrom trial.now.goal.now (λ s others. FollowsBy (algebra_of (B.content thy.now).declarations) trial.now.maxidx s others (attempted used.now trial.now.conclusion.now (seen_place spot.now))) trial.now.rests.now result }
{
    let matched = pairs_at(alloc, trial.items, trial.conclusion, used, spot)?;
    match unified(alloc, thy, trial.goal, matched, trial.maxidx, watch) {
        Ok(unifier) => made_at(alloc, thy, trial, used, spot, unifier),
        Err(fault) => Err(step_fault(fault)),
    }
}

/// Whether the fault is that there is no unifier.
fn is_no_unifier(fault: StepFault) -> bool
    ensures { MatchBool result (fault ≡ StepFault.NoUnifier) (fault ≢ StepFault.NoUnifier) }
{
    match fault {
        StepFault::NoUnifier => true,
        _ => false,
    }
}

/// The item at this place.
fn item_at<'t>(items: &[Item<'t>], at: usize) -> Item<'t>
    requires { at < length items.now }
    ensures { result ≡ get_or items.now at result }
{
    items[at]
}

/// What follows from the first hypothesis from this place on that serves.
pub fn tried_from<B: Ordered, W: Watch>(
    alloc: Global,
    thy: &B,
    trial: &Trial,
    used: &Use,
    from: usize,
    watch: &W,
) -> Result<Goal, StepFault>
    requires first { HasFirst trial.now.goal.now }
    requires may { (p : reading.Place) → shown trial.now.items.now ≡ reading.around p → MayAttempt trial.now.goal.now (attempted used.now trial.now.conclusion.now p) }
    requires set { IsLabelSet trial.now.rests.now }
    ensures { IsOutcomeFrom trial.now.goal.now (λ s others. FollowsByFirst (algebra_of (B.content thy.now).declarations) trial.now.maxidx s others (attempts_from used.now trial.now.conclusion.now trial.now.items.now from)) trial.now.rests.now result }
{
    if from >= trial.items.len() {
        return Err(StepFault::NoHypothesis);
    }
    match item_at(trial.items, from) {
        Item::Parameter(_) => tried_from(alloc, thy, trial, used, from + 1, watch),
        Item::Hypothesis(hypothesis) => {
            let spot = Spot {
                before: &trial.items[..from],
                hypothesis,
                after: &trial.items[from + 1..],
            };
            match tried_at(alloc, thy, trial, used, &spot, watch) {
                Ok(goal) => Ok(goal),
                Err(fault) => {
                    if is_no_unifier(fault) {
                        return tried_from(alloc, thy, trial, used, from + 1, watch);
                    }
                    Err(fault)
                }
            }
        }
    }
}

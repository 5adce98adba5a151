//! Attempts to make a step on a subgoal.
ghost use Rattle.std.specs.Prelude.{◌≡◌, ◌++◌, ◌∷◌, [], map, IfOk};
ghost use Rattle.pure_goal_laws.specs.Prefix as prefix;
ghost use Rattle.pure_goal_laws.specs.Lifting.{lifted_behind};
ghost use Rattle.pure_goal_laws.specs.GoalStep.{closed_pair};
ghost use Rattle.pure_goal_steps.specs.Reading as reading;
ghost use Rattle.pure_goal_steps.specs.Steps as steps;
ghost use Rattle.pure_goal_rules.specs.Shown.{shown, seen_place};
ghost use Rattle.pure_goal_rules.specs.Attempts.{seen_attempt, premise_at};

use crate::build::{behind, below_parameters, count_parameters};
use crate::item::{Item, Spot};
use crate::lifting::lifted;
use crate::rule::Rule;
use crate::standing::standing;
use pure_term::Term;
use pure_theorem::{Pair, implication};
use std::alloc::{AllocError, Global};

/// The pairs that have to be unified before those of the goal, and the new subgoals in place of the first.
#[derive(Drop)]
pub struct Attempt {
    pub matched: Vec<Pair>,
    pub premises: Vec<Term>,
}

/// The pair of the two terms, each below abstractions over the prefix's parameters.
fn closed(alloc: Global, items: &[Item], left: Term, right: Term) -> Result<Pair, AllocError>
    ensures { IfOk result (λ p. p ≡ closed_pair (shown items.now) left right) }
{
    if count_parameters(items)? == 0 {
        return Ok(Pair { left, right });
    }
    let left = below_parameters(alloc, items, left)?;
    let right = below_parameters(alloc, items, right)?;
    Ok(Pair { left, right })
}

/// The pair of the rule's term, lifted over the prefix, and a term behind the prefix.
fn matched(alloc: Global, items: &[Item], rule: &Term, term: Term) -> Result<Pair, AllocError>
    ensures { IfOk result (λ p. p ≡ closed_pair (shown items.now) (lifted_behind (shown items.now) rule.now) term) }
{
    let lifted = lifted(alloc, items, rule)?;
    closed(alloc, items, lifted, term)
}

/// The premise, lifted over the prefix, behind it.
fn premise_behind(alloc: Global, items: &[Item], premise: &Term) -> Result<Term, AllocError>
    ensures { IfOk result (λ t. t ≡ prefix.behind (shown items.now) (lifted_behind (shown items.now) premise.now)) }
{
    let lifted = lifted(alloc, items, premise)?;
    behind(alloc, items, lifted)
}

/// The premises, each so.
fn premises_behind(
    alloc: Global,
    items: &[Item],
    premises: &[Term],
) -> Result<Vec<Term>, AllocError>
    ensures { IfOk result (λ made. made.items ≡ steps.premises_behind (shown items.now) premises.now) }
{
    let mut made = Vec::new(alloc);
    for premise in premises {
        made.push(premise_behind(alloc, items, premise)?)?;
    }
    Ok(made)
}

/// The premise, lifted over the whole prefix, behind the items before a place and those after it.
fn premise_at(
    alloc: Global,
    items: &[Item],
    before: &[Item],
    after: &[Item],
    premise: &Term,
) -> Result<Term, AllocError>
    ensures { IfOk result (λ t. t ≡ premise_at (shown items.now) (shown before.now) (shown after.now) premise.now) }
{
    let lifted = lifted(alloc, items, premise)?;
    let inside = behind(alloc, after, lifted)?;
    behind(alloc, before, inside)
}

/// The premises, each so.
fn premises_at(
    alloc: Global,
    items: &[Item],
    before: &[Item],
    after: &[Item],
    premises: &[Term],
) -> Result<Vec<Term>, AllocError>
    ensures { IfOk result (λ made. made.items ≡ map (premise_at (shown items.now) (shown before.now) (shown after.now)) premises.now) }
{
    let mut made = Vec::new(alloc);
    for premise in premises {
        made.push(premise_at(alloc, items, before, after, premise)?)?;
    }
    Ok(made)
}

/// The list of one pair.
fn one_pair(alloc: Global, pair: Pair) -> Result<Vec<Pair>, AllocError>
    ensures { IfOk result (λ list. list.items ≡ pair ∷ []) }
{
    let mut list = Vec::new(alloc);
    list.push(pair)?;
    Ok(list)
}

/// The attempt with a rule: its conclusion, lifted over the prefix, is matched with that of the subgoal, and its premises, lifted and behind the prefix, are the new subgoals.
pub fn rule_attempt(
    alloc: Global,
    items: &[Item],
    conclusion: &Term,
    rule: &Rule,
) -> Result<Attempt, AllocError>
    ensures { IfOk result (λ a. seen_attempt a ≡ steps.rule_attempt (shown items.now) conclusion.now rule.now.premises.items rule.now.conclusion) }
{
    let premises = premises_behind(alloc, items, &rule.premises)?;
    let own = conclusion.copy(alloc)?;
    let pair = matched(alloc, items, &rule.conclusion, own)?;
    let matched = one_pair(alloc, pair)?;
    Ok(Attempt { matched, premises })
}

/// A rule with a first premise.
#[derive(Clone, Copy)]
pub struct Eliminator<'r> {
    pub first: &'r Term,
    pub others: &'r [Term],
    pub conclusion: &'r Term,
}

/// The pair of the rule's first premise, lifted over the prefix, and the hypothesis as it stands behind the prefix.
fn eliminated(alloc: Global, items: &[Item], first: &Term, spot: &Spot) -> Result<Pair, AllocError>
    ensures { IfOk result (λ p. p ≡ closed_pair (shown items.now) (lifted_behind (shown items.now) first.now) (reading.standing (seen_place spot.now))) }
{
    let hypothesis = standing(alloc, spot)?;
    matched(alloc, items, first, hypothesis)
}

/// The pairs that elimination of the hypothesis has unified: the rule's conclusion is matched with the subgoal's, then its first premise with the hypothesis.
pub fn elimination_pairs(
    alloc: Global,
    items: &[Item],
    conclusion: &Term,
    rule: &Eliminator,
    spot: &Spot,
) -> Result<Vec<Pair>, AllocError>
    requires { shown items.now ≡ reading.around (seen_place spot.now) }
    ensures { IfOk result (λ ps. ps.items ≡ (steps.elimination_attempt conclusion.now rule.now.first.now rule.now.others.now rule.now.conclusion.now (seen_place spot.now)).matched) }
{
    let own = conclusion.copy(alloc)?;
    let pair = matched(alloc, items, rule.conclusion, own)?;
    let mut matched = one_pair(alloc, pair)?;
    matched.push(eliminated(alloc, items, rule.first, spot)?)?;
    Ok(matched)
}

/// The new subgoals of elimination: the rule's other premises, behind the prefix without the hypothesis.
pub fn elimination_premises(
    alloc: Global,
    items: &[Item],
    rule: &Eliminator,
    spot: &Spot,
) -> Result<Vec<Term>, AllocError>
    requires { shown items.now ≡ reading.around (seen_place spot.now) }
    ensures { IfOk result (λ made. made.items ≡ steps.premises_behind (reading.without (seen_place spot.now)) rule.now.others.now) }
{
    let premises = premises_at(alloc, items, spot.before, spot.after, rule.others)?;
    Ok(premises)
}

/// The subgoal that destruction leaves: behind the prefix without the hypothesis, the rule's conclusion is the last hypothesis.
fn destructed(
    alloc: Global,
    items: &[Item],
    conclusion: &Term,
    rule: &Term,
    spot: &Spot,
) -> Result<Term, AllocError>
    requires { shown items.now ≡ reading.around (seen_place spot.now) }
    ensures { IfOk result (λ t. let rest = reading.without (seen_place spot.now) in t ≡ prefix.behind (rest ++ prefix.Hypothesis (lifted_behind rest rule.now) ∷ []) conclusion.now) }
{
    let own = conclusion.copy(alloc)?;
    let lifted = lifted(alloc, items, rule)?;
    let last = implication(alloc, lifted, own)?;
    let inside = behind(alloc, spot.after, last)?;
    behind(alloc, spot.before, inside)
}

/// The pair that destruction of the hypothesis has unified: the rule's first premise with the hypothesis.
pub fn destruction_pairs(
    alloc: Global,
    items: &[Item],
    rule: &Eliminator,
    spot: &Spot,
) -> Result<Vec<Pair>, AllocError>
    ensures { IfOk result (λ ps. ps.items ≡ closed_pair (shown items.now) (lifted_behind (shown items.now) rule.now.first.now) (reading.standing (seen_place spot.now)) ∷ []) }
{
    let pair = eliminated(alloc, items, rule.first, spot)?;
    one_pair(alloc, pair)
}

/// The new subgoals of destruction: the rule's other premises, behind the prefix without the hypothesis; and the old subgoal so, with the rule's conclusion as its last hypothesis.
pub fn destruction_premises(
    alloc: Global,
    items: &[Item],
    conclusion: &Term,
    rule: &Eliminator,
    spot: &Spot,
) -> Result<Vec<Term>, AllocError>
    requires { shown items.now ≡ reading.around (seen_place spot.now) }
    ensures { IfOk result (λ made. made.items ≡ (steps.destruction_attempt conclusion.now rule.now.first.now rule.now.others.now rule.now.conclusion.now (seen_place spot.now)).premises) }
{
    let mut premises = premises_at(alloc, items, spot.before, spot.after, rule.others)?;
    premises.push(destructed(alloc, items, conclusion, rule.conclusion, spot)?)?;
    Ok(premises)
}

/// The pair that assumption has unified: the hypothesis and the conclusion.
pub fn assumption_pairs(
    alloc: Global,
    items: &[Item],
    conclusion: &Term,
    spot: &Spot,
) -> Result<Vec<Pair>, AllocError>
    ensures { IfOk result (λ ps. ps.items ≡ closed_pair (shown items.now) (reading.standing (seen_place spot.now)) conclusion.now ∷ []) }
{
    let own = conclusion.copy(alloc)?;
    let hypothesis = standing(alloc, spot)?;
    let pair = closed(alloc, items, hypothesis, own)?;
    one_pair(alloc, pair)
}

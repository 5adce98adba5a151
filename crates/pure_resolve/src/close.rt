//! A goal of subgoals and a marked statement, within the limits.
ghost use Rattle.std.specs.Prelude.{◌≡◌, [], IfOk, IfSome};
ghost use Rattle.pure_text.specs.Lists.{Each};
ghost use Rattle.pure_definitions.specs.Names.{imp_name};
ghost use Rattle.pure_definitions.specs.Terms.Term as tree;
ghost use Rattle.pure_logic.specs.Connectives.{imp_typ, imp, chain};
ghost use Rattle.pure_theorem.specs.Sets.{IsLabelSet};
ghost use Rattle.pure_resolve.specs.Goals.{IsLeftTyped, IsConcluded};

use crate::limits::is_small;
use crate::state::Goal;
use pure_goal_steps::StepFault;
use pure_term::{Label, Term, TermNode};
use pure_theorem::{Pair, Thm, as_implication, implication_by, implication_constant};
use std::alloc::{AllocError, Global};
use std::sync::Arc;

/// The function of an application.
fn function_of(t: &Term) -> Option<&Arc<Term>>
    ensures { IfSome result (λ f. (a : tree.Term) × (t.now ≡ tree.App f.now.value a)) }
{
    match &t.node {
        TermNode::App { fun, .. } => Some(fun),
        _ => None,
    }
}

/// The constant of implication, where the term is an implication.
fn connective_in(t: &Term) -> Option<&Arc<Term>>
    ensures { IfSome result (λ c. c.now.value ≡ tree.Const imp_name imp_typ) }
{
    let Some(_) = as_implication(t) else {
        return None;
    };
    let Some(function) = function_of(t) else {
        return None;
    };
    let whole: &Term = function;
    function_of(whole)
}

/// The constant of implication, to be shared: as it stands in the term, where that is an implication, else a new one.
fn connective_for(alloc: Global, t: &Term) -> Result<Arc<Term>, AllocError>
    ensures { IfOk result (λ c. c.value ≡ tree.Const imp_name imp_typ) }
{
    match connective_in(t) {
        Some(connective) => Arc::try_clone(connective),
        None => implication_constant(alloc),
    }
}

/// The premises, in order, before the conclusion.
fn chained(alloc: Global, mut premises: Vec<Term>, mut conclusion: Term) -> Result<Term, AllocError>
    ensures { IfOk result (λ t. t ≡ chain premises.items conclusion) }
{
    if premises.is_empty() {
        return Ok(conclusion);
    }
    let connective = connective_for(alloc, &conclusion)?;
    while let Some(premise) = premises.pop() {
        conclusion = implication_by(alloc, &connective, premise, conclusion)?;
    }
    Ok(conclusion)
}

/// The goal's proposition with this premise for its first.
pub fn with_first(alloc: Global, t: &Term, first: Term) -> Result<Term, AllocError>
    requires { (A : tree.Term) × (B : tree.Term) × (t.now ≡ imp A B) }
    ensures { (A : tree.Term) → (B : tree.Term) → t.now ≡ imp A B → IfOk result (λ u. u ≡ imp first B) }
{
    let Some((_, rest)) = as_implication(t) else {
        unreachable!();
    };
    let conclusion = rest.copy(alloc)?;
    let connective = connective_for(alloc, t)?;
    implication_by(alloc, &connective, first, conclusion)
}

/// The theorem of a goal's proposition, its pairs and its promises.
fn theorem(alloc: Global, prop: Term, pairs: Vec<Pair>, rests: Vec<Label>) -> Thm
    requires { IsLabelSet rests.items }
    ensures { result ≡ record { hyps = []; pairs = pairs.items; prop = prop; rests = rests.items } }
{
    let hyps = Vec::new(alloc);
    Thm {
        hyps,
        pairs,
        prop,
        rests,
    }
}

/// The goal of this proposition, where it and its pairs are within the limits as one proposition.
pub fn within_limits(
    alloc: Global,
    prop: Term,
    pairs: Vec<Pair>,
    rests: Vec<Label>,
) -> Result<Goal, StepFault>
    requires typed { Each IsLeftTyped pairs.items }
    requires set { IsLabelSet rests.items }
    ensures { IsConcluded pairs.items prop rests.items result }
{
    let thm = theorem(alloc, prop, pairs, rests);
    if is_small(alloc, &thm)? {
        Ok(Goal { thm })
    } else {
        Err(StepFault::Big)
    }
}

/// The goal of these parts, where its pairs and its proposition are within the limits as one proposition.
pub fn concluded(
    alloc: Global,
    subgoals: Vec<Term>,
    marked: Term,
    pairs: Vec<Pair>,
    rests: Vec<Label>,
) -> Result<Goal, StepFault>
    requires typed { Each IsLeftTyped pairs.items }
    requires set { IsLabelSet rests.items }
    ensures { IsConcluded pairs.items (chain subgoals.items marked) rests.items result }
{
    let prop = chained(alloc, subgoals, marked)?;
    within_limits(alloc, prop, pairs, rests)
}

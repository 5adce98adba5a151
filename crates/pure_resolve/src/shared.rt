//! Premises before a mark in another order, where what applies the connective to each is shared.
ghost use Rattle.std.specs.Prelude.{◌≡◌, ◌∷◌, ◌++◌, [], List, length, IfOk, IfSome, MatchOption};
ghost use Rattle.pure_definitions.specs.Terms.Term as tree;
ghost use Rattle.pure_logic.specs.Connectives.{chain, protect};
ghost use Rattle.pure_theorem.specs.Shapes.{IsNoApplication};
ghost use Rattle.pure_resolve.specs.Premises.{implied_by, IsFirstPremise, IsTaken};

use pure_term::{Term, TermNode};
use std::alloc::{AllocError, Global};
use std::sync::Arc;

/// The function and the argument of an application, to be shared.
fn shared_application(t: &Term) -> Option<(&Arc<Term>, &Arc<Term>)>
    ensures { MatchOption result (IsNoApplication t.now) (λ parts. t.now ≡ tree.App parts.0.now.value parts.1.now.value) }
{
    match &t.node {
        TermNode::App { fun, arg, .. } => Some((fun, arg)),
        _ => None,
    }
}

/// What applies the connective to the first premise before a mark, and what is behind it; none where there is no premise. The mark stands alone in front of its statement, so the connective needn't be looked at.
pub fn first_premise(t: &Term) -> Option<(&Arc<Term>, &Arc<Term>)>
    ensures parts { IfSome result (λ parts. t.now ≡ tree.App parts.0.now.value parts.1.now.value) }
    ensures premise { (As : List tree.Term) → (C : tree.Term) → t.now ≡ chain As (protect C) → MatchOption result (As ≡ []) (λ parts. IsFirstPremise As C parts.0.now.value parts.1.now.value) }
{
    let Some((function, argument)) = shared_application(t) else {
        return None;
    };
    let whole: &Term = function;
    match shared_application(whole) {
        Some(_) => Some((function, argument)),
        None => None,
    }
}

/// The application, in a block of its own.
fn applied(
    alloc: Global,
    function: &Arc<Term>,
    argument: Arc<Term>,
) -> Result<Arc<Term>, AllocError>
    ensures { IfOk result (λ t. t.value ≡ tree.App function.now.value argument.value) }
{
    let function = Arc::try_clone(function)?;
    Ok(Arc::new(alloc, Term::app(function, argument))?)
}

/// The premises before a mark, and one more behind them, which is given as what applies the connective to it. One node is made for each.
pub fn with_last(alloc: Global, t: &Arc<Term>, last: &Arc<Term>) -> Result<Arc<Term>, AllocError>
    ensures { (As : List tree.Term) → (A : tree.Term) → (C : tree.Term) → t.now.value ≡ chain As (protect C) → last.now.value ≡ implied_by A → IfOk result (λ new. new.value ≡ chain (As ++ A ∷ []) (protect C)) }
{
    let whole: &Term = t;
    let Some((first, rest)) = first_premise(whole) else {
        let marked = Arc::try_clone(t)?;
        return applied(alloc, last, marked);
    };
    let conclusion = with_last(alloc, rest, last)?;
    applied(alloc, first, conclusion)
}

/// A premise that is taken out of those before a mark, as what applies the connective to it; and what is left.
#[derive(Drop)]
pub struct Taken {
    pub first: Arc<Term>,
    pub rest: Arc<Term>,
}

/// The parts of an implication, shared.
fn taken_first(first: &Arc<Term>, rest: &Arc<Term>) -> Result<Taken, AllocError>
    ensures first { IfOk result (λ taken. taken.first.value ≡ first.now.value) }
    ensures rest { IfOk result (λ taken. taken.rest.value ≡ rest.now.value) }
{
    let first = Arc::try_clone(first)?;
    let rest = Arc::try_clone(rest)?;
    Ok(Taken { first, rest })
}

/// What was taken, with the premise that is given put before what is left.
fn behind(alloc: Global, premise: &Arc<Term>, inner: Taken) -> Result<Taken, AllocError>
    ensures first { IfOk result (λ taken. taken.first.value ≡ inner.first.value) }
    ensures rest { IfOk result (λ taken. taken.rest.value ≡ tree.App premise.now.value inner.rest.value) }
{
    let Taken { first, rest } = inner;
    let rest = applied(alloc, premise, rest)?;
    Ok(Taken { first, rest })
}

/// The premise at this place, and the others. One node is made for each in front of it. Where there is no such place, that is want of memory.
pub fn taken_at(alloc: Global, t: &Term, place: usize) -> Result<Taken, AllocError>
    ensures { (front : List tree.Term) → (A : tree.Term) → (others : List tree.Term) → (C : tree.Term) → t.now ≡ chain (front ++ A ∷ others) (protect C) → place ≡ length front → IfOk result (IsTaken A (front ++ others) C) }
{
    let Some((first, rest)) = first_premise(t) else {
        return Err(AllocError);
    };
    if place == 0 {
        return taken_first(first, rest);
    }
    let tail: &Term = rest;
    let inner = taken_at(alloc, tail, place - 1)?;
    behind(alloc, first, inner)
}

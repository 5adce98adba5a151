//! Propositions behind a prefix, and terms below abstractions over its parameters.
ghost use Rattle.std.specs.Prelude.{◌≡◌, ◌+◌, [], ◌∷◌, length, IfOk};
ghost use Rattle.pure_definitions.specs.Terms.Term as tree;
ghost use Rattle.pure_logic.specs.Connectives.{all};
ghost use Rattle.pure_goal_laws.specs.Prefix as prefix;
ghost use Rattle.pure_goal_rules.specs.Shown.{seen, shown};

use crate::item::Item;
use pure_term::{Term, Typ};
use pure_theorem::{all_of, implication};
use std::alloc::{AllocError, Global};
use std::sync::Arc;

/// `%x. b`, over variables of the type.
fn abstraction(alloc: Global, typ: &Typ, body: Term) -> Result<Term, AllocError>
    ensures { IfOk result (λ t. t ≡ tree.Abs typ.now body) }
{
    let body = Arc::new(alloc, body)?;
    let typ = typ.copy(alloc)?;
    Ok(Term::abs(typ, body))
}

/// `!!x. B`, over variables of the type.
fn quantification(alloc: Global, typ: &Typ, body: Term) -> Result<Term, AllocError>
    ensures { IfOk result (λ t. t ≡ all typ.now body) }
{
    let function = abstraction(alloc, typ, body)?;
    all_of(alloc, typ, function)
}

/// The premise before the conclusion.
fn supposed(alloc: Global, premise: &Term, conclusion: Term) -> Result<Term, AllocError>
    ensures { IfOk result (λ t. t ≡ prefix.behind (prefix.Hypothesis premise.now ∷ []) conclusion) }
{
    let premise = premise.copy(alloc)?;
    implication(alloc, premise, conclusion)
}

/// The proposition behind one item.
fn behind_one(alloc: Global, item: &Item, t: Term) -> Result<Term, AllocError>
    ensures { IfOk result (λ u. u ≡ prefix.behind (seen item.now ∷ []) t) }
{
    match item {
        Item::Parameter(typ) => quantification(alloc, typ, t),
        Item::Hypothesis(premise) => supposed(alloc, premise, t),
    }
}

/// The proposition behind the prefix.
pub fn behind(alloc: Global, items: &[Item], t: Term) -> Result<Term, AllocError>
    ensures { IfOk result (λ u. u ≡ prefix.behind (shown items.now) t) }
{
    let Some((first, rest)) = items.split_first() else {
        return Ok(t);
    };
    let inside = behind(alloc, rest, t)?;
    behind_one(alloc, first, inside)
}

/// The term below an abstraction over the item, where it is a parameter.
fn below_one(alloc: Global, item: &Item, t: Term) -> Result<Term, AllocError>
    ensures { IfOk result (λ u. u ≡ prefix.below_parameters (seen item.now ∷ []) t) }
{
    match item {
        Item::Parameter(typ) => abstraction(alloc, typ, t),
        Item::Hypothesis(_) => Ok(t),
    }
}

/// The term below abstractions over the prefix's parameters.
pub fn below_parameters(alloc: Global, items: &[Item], t: Term) -> Result<Term, AllocError>
    ensures { IfOk result (λ u. u ≡ prefix.below_parameters (shown items.now) t) }
{
    let Some((first, rest)) = items.split_first() else {
        return Ok(t);
    };
    let inside = below_parameters(alloc, rest, t)?;
    below_one(alloc, first, inside)
}

/// The count, and one more for a parameter.
fn counted(item: &Item, count: u32) -> Result<u32, AllocError>
    ensures { IfOk result (λ n. n ≡ count + length (prefix.parameters (seen item.now ∷ []))) }
{
    match item {
        Item::Parameter(_) => one_more(count),
        Item::Hypothesis(_) => Ok(count),
    }
}

/// The count of the prefix's parameters. 2 ^ 32, which no memory holds, are want of memory.
pub fn count_parameters(items: &[Item]) -> Result<u32, AllocError>
    ensures { IfOk result (λ n. n ≡ length (prefix.parameters (shown items.now))) }
{
    let mut count = 0;
    for item in items {
        count = counted(item, count)?;
    }
    Ok(count)
}

/// One more than the number. Numbers beyond 32 bits are want of memory.
pub fn one_more(count: u32) -> Result<u32, AllocError>
    ensures { IfOk result (λ n. n ≡ count + 1) }
{
    match count.checked_add(1) {
        Some(more) => Ok(more),
        None => Err(AllocError),
    }
}

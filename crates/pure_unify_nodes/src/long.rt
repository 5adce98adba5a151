//! Sides in long form, or what stops the search.
ghost use Rattle.std.specs.Prelude.{◌≡◌, ◌++◌, ◌∷◌, [], IfOk, IfErr, OnOk};
ghost use Rattle.pure_text.specs.Lists.{Each};
ghost use Rattle.pure_definitions.specs.Types.Typ as tree;
ghost use Rattle.pure_definitions.specs.Terms.Term.{IsWithin};
ghost use Rattle.pure_definitions.specs.Terms.Typing.{HasType};
ghost use Rattle.pure_definitions.specs.Reduction.Beta.{IsBetaNormal};
ghost use Rattle.pure_unify_definitions.specs.LongSides.{AllLong, AreLong};
ghost use Rattle.pure_unify_nodes.specs.SideAnswer.{IsTyped, AreSidesTyped, IsLengthened, IsSideAnswer, IsPairAnswer, IsSidesFault};

use crate::own::{is_long, is_own};
use pure_eta::long_form;
use pure_norm::{NormFault, beta_norm};
use pure_term::{Grow, Term};
use pure_theorem::Pair;
use std::alloc::{AllocError, Global};

/// The long form of a normal term.
fn long_of_normal(alloc: Global, normal: &Term) -> Result<Term, NormFault>
    requires typed { IsTyped normal.now }
    requires normal { IsBetaNormal normal.now }
    ensures { IsLengthened normal.now result }
{
    match long_form(alloc, normal) {
        Ok(long) => Ok(long),
        Err(Grow::Big) => Err(NormFault::Big),
        Err(Grow::Memory) => Err(NormFault::Memory),
    }
}

/// The long form of a side that is made, or what stops the search.
fn made_long(alloc: Global, t: &Term) -> Result<Term, NormFault>
    requires { IsTyped t.now }
    ensures { IsSideAnswer t.now result }
{
    match beta_norm(alloc, t) {
        Ok(normal) => long_of_normal(alloc, &normal),
        Err(fault) => Err(fault),
    }
}

/// The long form of a side, or what stops the search. A side that is its own is copied.
pub fn long_side(alloc: Global, t: &Term) -> Result<Term, NormFault>
    requires { IsTyped t.now }
    ensures { IsSideAnswer t.now result }
{
    if is_own(t) {
        let copy = t.copy(alloc)?;
        return Ok(copy);
    }
    made_long(alloc, t)
}

/// The same of a side within the limits that is handed over: one that is its own long form is handed back.
pub fn owned_long_side(alloc: Global, t: Term) -> Result<Term, NormFault>
    requires typed { IsTyped t }
    requires within { IsWithin t }
    ensures { IsSideAnswer t result }
{
    if is_long(&t) {
        return Ok(t);
    }
    made_long(alloc, &t)
}

/// The pair with both sides in long form, or what the first of them that stops the search stops it by.
fn long_pair(alloc: Global, pair: &Pair) -> Result<Pair, NormFault>
    requires { AreSidesTyped pair.now }
    ensures { IsPairAnswer pair.now result }
{
    let left = match long_side(alloc, &pair.left) {
        Ok(left) => left,
        Err(fault) => return Err(fault),
    };
    match long_side(alloc, &pair.right) {
        Ok(right) => Ok(Pair { left, right }),
        Err(fault) => Err(fault),
    }
}

/// Puts the pair behind those of the list.
fn put(list: &mut Vec<Pair>, pair: Pair) -> Result<(), AllocError>
    ensures { OnOk result (list.new.items ≡ list.old.items ++ pair ∷ []) }
{
    list.push(pair)?;
    Ok(())
}

/// The pairs with all sides in long form, or what the first of them that stops the search stops it by.
pub fn long_pairs(alloc: Global, pairs: &[Pair]) -> Result<Vec<Pair>, NormFault>
    requires { Each AreSidesTyped pairs.now }
    ensures ok { IfOk result (λ long. AreLong pairs.now (AllLong long.items)) }
    ensures fault { IfErr result (IsSidesFault pairs.now) }
{
    let mut long = Vec::new(alloc);
    for pair in pairs {
        match long_pair(alloc, pair) {
            Ok(made) => put(&mut long, made)?,
            Err(fault) => return Err(fault),
        }
    }
    Ok(long)
}

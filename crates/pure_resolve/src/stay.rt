//! Terms that the maps of a unifier leave as they are.
ghost use Rattle.std.specs.Prelude.{◌≡◌, ◌≤◌, List, IsTrue, IfSome, MatchOption};
ghost use Rattle.pure_text.specs.Lists.{Each};
ghost use Rattle.pure_definitions.specs.Terms.Term as tree;
ghost use Rattle.pure_definitions.specs.Terms.Subst.{typ_image, typ_instance, term_image};
ghost use Rattle.pure_definitions.specs.Terms.Subst as maps;
ghost use Rattle.pure_logic.specs.Connectives.{chain, protect};
ghost use Rattle.pure_logic.specs.Laws.Maps.{instantiated};
ghost use Rattle.pure_resolve.specs.Below.{IsBelowSet};
ghost use Rattle.pure_resolve.specs.Settled.{StaysBehind};

use pure_term::{
    Name, Term, TermBind, TermMap, TermNode, Typ, TypBind, TypMap, TypNode, index_above_of,
    index_above_of_typ,
};
use pure_theorem::as_implication;

/// A number that is at most the index of each variable that the map sets.
fn least_typ(binds: &[TypBind]) -> u64
    ensures { Each (λ (b : maps.TypBind). result ≤ b.index) binds.now }
{
    let mut least = u64::MAX;
    for bind in binds {
        least = least.min(u64::from(bind.index));
    }
    least
}

/// The same of a term map.
fn least_term(binds: &[TermBind]) -> u64
    ensures { Each (λ (b : maps.TermBind). result ≤ b.index) binds.now }
{
    let mut least = u64::MAX;
    for bind in binds {
        least = least.min(u64::from(bind.index));
    }
    least
}

/// A number that is at most the index of each variable that the maps set.
pub fn least_set(typs: &TypMap, terms: &TermMap) -> u64
    ensures { IsBelowSet typs.now terms.now result }
{
    least_typ(typs.binds()).min(least_term(terms.binds()))
}

/// Whether the map sets no variable of the type, which then stays as it is. One whose indexes are all below those that are set isn't walked.
#[cycle(stays_typ)]
fn stays_typ(typs: &TypMap, least: u64, t: &Typ) -> bool
    requires { Each (λ (b : maps.TypBind). least ≤ b.index) typs.now }
    ensures { IsTrue result → typ_instance (typ_image typs.now) t.now ≡ t.now }
{
    if index_above_of_typ(t) <= least {
        return true;
    }
    match &t.node {
        TypNode::TFree { .. } => true,
        TypNode::TVar { name, index, sort } => typs.find(*name, *index, sort).is_none(),
        TypNode::Con { args, .. } => all_stay(typs, least, args.as_slice()),
    }
}

/// Whether the map sets no variable of the types, each of which then stays as it is.
#[cycle(stays_typ)]
fn all_stay(typs: &TypMap, least: u64, types: &[Typ]) -> bool
    requires { Each (λ (b : maps.TypBind). least ≤ b.index) typs.now }
    ensures { IsTrue result → Each (λ t. typ_instance (typ_image typs.now) t ≡ t) types.now }
{
    for typ in types {
        if !stays_typ(typs, least, typ) {
            return false;
        }
    }
    true
}

/// Whether the maps set neither the schematic variable nor a variable of its type.
fn stays_variable(
    typs: &TypMap,
    terms: &TermMap,
    least: u64,
    name: Name,
    index: u32,
    typ: &Typ,
) -> bool
    requires { IsBelowSet typs.now terms.now least }
    ensures { IsTrue result → term_image terms.now (tree.Var name index (typ_instance (typ_image typs.now) typ.now)) ≡ tree.Var name index typ.now }
{
    stays_typ(typs, least, typ) && terms.find(name, index, typ).is_none()
}

/// Whether the maps set no variable of the term, which then stays as it is. A part whose indexes are all below those that are set isn't walked.
pub fn stays(typs: &TypMap, terms: &TermMap, least: u64, t: &Term) -> bool
    requires { IsBelowSet typs.now terms.now least }
    ensures { IsTrue result → instantiated typs.now terms.now t.now ≡ t.now }
{
    if index_above_of(t) <= least {
        return true;
    }
    match &t.node {
        TermNode::Const { typ, .. } => stays_typ(typs, least, typ),
        TermNode::Free { typ, .. } => stays_typ(typs, least, typ),
        TermNode::Var { name, index, typ } => stays_variable(
            typs, terms, least, *name, *index, typ,
        ),
        TermNode::Bound { .. } => true,
        TermNode::Abs { typ, body, .. } => {
            stays_typ(typs, least, typ) && stays(typs, terms, least, body)
        }
        TermNode::App { fun, arg, .. } => {
            stays(typs, terms, least, fun) && stays(typs, terms, least, arg)
        }
    }
}

/// No premise, where nothing behind them is set.
fn count_of(stays: bool) -> Option<usize>
    ensures { MatchOption result (Unit {0}) (λ n. IsTrue stays × (n ≡ 0)) }
{
    if stays { Some(0) } else { None }
}

/// The count of the premises before a mark up to the last in which a variable is set; none where one is behind the mark.
pub fn count_set(typs: &TypMap, terms: &TermMap, least: u64, t: &Term) -> Option<usize>
    requires { IsBelowSet typs.now terms.now least }
    ensures { (As : List tree.Term) → (C : tree.Term) → t.now ≡ chain As (protect C) → IfSome result (λ n. StaysBehind typs.now terms.now n As C) }
{
    if index_above_of(t) <= least {
        return Some(0);
    }
    let Some((premise, rest)) = as_implication(t) else {
        return count_of(stays(typs, terms, least, t));
    };
    let Some(behind) = count_set(typs, terms, least, rest) else {
        return None;
    };
    if behind == 0 {
        if stays(typs, terms, least, premise) {
            return Some(0);
        }
    }
    behind.checked_add(1)
}

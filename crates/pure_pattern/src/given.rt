//! The entries of the variables of the given pairs.
ghost use Rattle.std.specs.Prelude.{◌≡◌, ◌++◌, ◌∷◌, [], IfOk, OnOk};
ghost use Rattle.std.specs.List.{list_any};
ghost use Rattle.pure_text.specs.Lists.{Each};
ghost use Rattle.pure_definitions.specs.Terms.Term as tree;
ghost use Rattle.pure_definitions.specs.Terms.Term.{term_eq};
ghost use Rattle.pure_definitions.specs.Terms.Subst.{term_variable};
ghost use Rattle.pure_unify_definitions.specs.Fronts.{variables, pair_variables};
ghost use Rattle.pure_unify_final.specs.Laws.{AreVariablesUpTo};
ghost use Rattle.pure_pattern_laws.specs.Steps.{given_binds};
ghost use Rattle.pure_pattern.specs.Given.{stands_in_sides};

use crate::put::push_bind;
use pure_term::{Name, Term, TermBind, TermNode, Typ, index_above_of};
use pure_theorem::Pair;
use std::alloc::{AllocError, Global};

/// Whether the term is this schematic variable.
fn is_variable(t: &Term, name: Name, index: u32, typ: &Typ) -> bool
    ensures { result ≡ term_eq (tree.Var name index typ.now) t.now }
{
    match &t.node {
        TermNode::Var {
            name: other,
            index: number,
            typ: own,
        } => name == *other && index == *number && *typ == *own,
        _ => false,
    }
}

/// Whether this schematic variable stands in the term.
fn stands_in(t: &Term, name: Name, index: u32, typ: &Typ) -> bool
    ensures { result ≡ list_any (term_eq (tree.Var name index typ.now)) (variables t.now) }
{
    if index_above_of(t) <= u64::from(index) {
        return false;
    }
    match &t.node {
        TermNode::Var { .. } => is_variable(t, name, index, typ),
        TermNode::Abs { body, .. } => stands_in(body, name, index, typ),
        TermNode::App { fun, arg, .. } => {
            stands_in(fun, name, index, typ) || stands_in(arg, name, index, typ)
        }
        _ => false,
    }
}

/// Whether this schematic variable stands in a side of the pair.
fn stands_in_pair(pair: &Pair, name: Name, index: u32, typ: &Typ) -> bool
    ensures { result ≡ stands_in_sides (tree.Var name index typ.now) pair.now }
{
    stands_in(&pair.left, name, index, typ) || stands_in(&pair.right, name, index, typ)
}

/// Whether this schematic variable stands in a side of the pairs.
fn stands_in_pairs(pairs: &[Pair], name: Name, index: u32, typ: &Typ) -> bool
    ensures { result ≡ list_any (term_eq (tree.Var name index typ.now)) (pair_variables pairs.now) }
{
    for pair in pairs {
        if stands_in_pair(pair, name, index, typ) {
            return true;
        }
    }
    false
}

/// Whether the entry replaces a variable of the pairs. None of those has an index above `maxidx`.
fn is_given(pairs: &[Pair], maxidx: u32, bind: &TermBind) -> bool
    requires { Each (AreVariablesUpTo maxidx) pairs.now }
    ensures { result ≡ list_any (term_eq (term_variable bind.now)) (pair_variables pairs.now) }
{
    let index = bind.index;
    if maxidx < index {
        return false;
    }
    stands_in_pairs(pairs, bind.name, index, &bind.typ)
}

/// Puts the entry behind the others, if it is one of a variable of the pairs.
fn add_given(
    given: &mut Vec<TermBind>,
    pairs: &[Pair],
    maxidx: u32,
    bind: TermBind,
) -> Result<(), AllocError>
    requires { Each (AreVariablesUpTo maxidx) pairs.now }
    ensures { OnOk result (given.new.items ≡ given.old.items ++ given_binds pairs.now (bind ∷ [])) }
{
    if !is_given(pairs, maxidx, &bind) {
        return Ok(());
    }
    push_bind(given, bind)?;
    Ok(())
}

/// The entries of the variables that occur in the pairs.
pub(crate) fn given_of(
    alloc: Global,
    pairs: &[Pair],
    maxidx: u32,
    binds: Vec<TermBind>,
) -> Result<Vec<TermBind>, AllocError>
    requires { Each (AreVariablesUpTo maxidx) pairs.now }
    ensures { IfOk result (λ given. given.items ≡ given_binds pairs.now binds.items) }
{
    let mut given = Vec::new(alloc);
    for bind in binds {
        add_given(&mut given, pairs, maxidx, bind)?;
    }
    Ok(given)
}

//! Definitions: which theorems are, and where they unfold a constant.
ghost use Rattle.std.specs.Prelude.{◌≡◌, ◌↔◌, IsTrue, IfOk, MatchOption};
ghost use Rattle.pure_definitions.specs.Types.Order.{IsOfSort};
ghost use Rattle.pure_definitions.specs.Terms.Term as tree;
ghost use Rattle.pure_definitions.specs.Terms.Subst.{IsTypMap, AreSortRespecting, typ_image, inst_typ};
ghost use Rattle.pure_unfold.specs.Unfold.{IsDefinition, IsNoDefinition};
ghost use Rattle.pure_conv.specs.Rules.{puts, IsNoConstant};

use pure_certify::{has_extra_typ, has_variable, match_typ};
use pure_order::Order;
use pure_term::{Name, Term, TermNode, Typ, TypBind, TypMap};
use pure_theorem::as_equation;
use std::alloc::{AllocError, Global};

/// A definition over classes and arities: the constant, its type, and what it is defined to be.
#[derive(Clone, Copy)]
pub struct Rule<'r> {
    pub order: &'r Order,
    pub name: Name,
    pub typ: &'r Typ,
    pub body: &'r Term,
}

/// The name and the type of a constant.
fn as_constant(t: &Term) -> Option<(Name, &Typ)>
    ensures { MatchOption result (IsNoConstant t.now) (λ parts. t.now ≡ tree.Const parts.0 parts.1.now) }
{
    match &t.node {
        TermNode::Const { name, typ } => Some((*name, typ)),
        _ => None,
    }
}

/// The constant, its type and its body, where the proposition is a definition.
fn as_definition(prop: &Term) -> Option<(Name, &Typ, &Term)>
    ensures { MatchOption result (IsNoDefinition prop.now) (λ parts. IsDefinition prop.now parts.0 parts.1.now parts.2.now) }
{
    let Some((_, left, body)) = as_equation(prop) else {
        return None;
    };
    let Some((name, typ)) = as_constant(left) else {
        return None;
    };
    if has_variable(body) {
        return None;
    }
    if has_extra_typ(typ, body) {
        return None;
    }
    Some((name, typ, body))
}

/// The definition over the classes and arities, where the proposition is one.
pub fn rule_of<'r>(order: &'r Order, prop: &'r Term) -> Option<Rule<'r>>
    ensures { MatchOption result (IsNoDefinition prop.now) (λ r. IsDefinition prop.now r.name r.typ.now r.body.now × (r.order.now ≡ order.now)) }
{
    let Some((name, typ, body)) = as_definition(prop) else {
        return None;
    };
    Some(Rule {
        order,
        name,
        typ,
        body,
    })
}

/// Whether the entry's image is of its variable's sort.
fn is_sorted(order: &Order, bind: &TypBind) -> bool
    ensures { IsTrue result ↔ IsOfSort order.now bind.now.image bind.now.sort }
{
    order.of_sort(&bind.image, &bind.sort)
}

/// Whether each entry's image is of its variable's sort.
fn all_sorted(order: &Order, binds: &[TypBind]) -> bool
    ensures { IsTrue result ↔ AreSortRespecting order.now binds.now }
{
    for bind in binds {
        if !is_sorted(order, bind) {
            return false;
        }
    }
    true
}

/// Whether each image of the map is of its variable's sort.
fn are_sorted(order: &Order, binds: &TypMap) -> bool
    ensures distinct { IsTypMap binds.now }
    ensures sorted { IsTrue result ↔ AreSortRespecting order.now binds.now }
{
    all_sorted(order, binds.binds())
}

/// Whether the names are equal.
fn is_same(name: Name, other: Name) -> bool
    ensures { IsTrue result ↔ (name ≡ other) }
{
    name == other
}

/// The types that are put for the variables of the definition, where it unfolds the constant of this name and type.
pub fn instance_for(
    alloc: Global,
    rule: &Rule,
    name: Name,
    typ: &Typ,
) -> Result<Option<TypMap>, AllocError>
    ensures { IfOk result (λ found. MatchOption found ((u : tree.Term) → ¬ puts rule.now name typ.now u) (λ binds. puts rule.now name typ.now (inst_typ (typ_image binds) rule.now.body.now))) }
{
    if !is_same(name, rule.name) {
        return Ok(None);
    }
    let mut binds = TypMap::empty(alloc);
    let can = match_typ(alloc, rule.typ, typ, &mut binds)?;
    if !can {
        return Ok(None);
    }
    if !are_sorted(rule.order, &binds) {
        return Ok(None);
    }
    Ok(Some(binds))
}

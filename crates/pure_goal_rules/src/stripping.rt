//! Rules stripped of their front.
ghost use Rattle.std.specs.Prelude.{◌≡◌, List, ◌++◌, IfOk};
ghost use Rattle.pure_definitions.specs.Terms.Term as tree;
ghost use Rattle.pure_definitions.specs.Terms.Bounds as bounds;
ghost use Rattle.pure_definitions.specs.Terms.Bounds.{subst_under};
ghost use Rattle.pure_definitions.specs.Terms.Conditions.{IsVariable};
ghost use Rattle.pure_goal_rules.specs.Rules.{IsStrippedOn};

use crate::build::one_more;
use crate::read::as_quantified;
use pure_term::{Name, Term, TermNode, Typ, copied, loose_above_of};
use pure_theorem::as_implication;
use std::alloc::{AllocError, Global};
use std::sync::Arc;

/// A bound variable under so many binders, where the variable is put for the next one.
fn at_place(alloc: Global, under: u32, v: &Arc<Term>, place: u32) -> Result<Arc<Term>, AllocError>
    requires { IsVariable v.now.value }
    ensures { IfOk result (λ u. u.value ≡ bounds.place_at under v.now.value place) }
{
    if place == under {
        return Arc::try_clone(v);
    }
    let place = if place < under { place } else { place - 1 };
    let node = TermNode::Bound { place };
    Ok(Arc::new(alloc, Term { node })?)
}

/// The part with the variable put for the bound variable that stands above so many binders. One in which none is loose there is handed back as it is.
fn put_variable(
    alloc: Global,
    under: u32,
    v: &Arc<Term>,
    t: &Arc<Term>,
) -> Result<Arc<Term>, AllocError>
    requires { IsVariable v.now.value }
    ensures { IfOk result (λ u. u.value ≡ subst_under under v.now.value t.now.value) }
{
    let whole: &Term = t;
    if loose_above_of(whole) <= u64::from(under) {
        return Arc::try_clone(t);
    }
    match &whole.node {
        TermNode::Bound { place } => at_place(alloc, under, v, *place),
        TermNode::Abs { typ, body, .. } => {
            let deeper = one_more(under)?;
            let typ = typ.copy(alloc)?;
            let body = put_variable(alloc, deeper, v, body)?;
            Ok(Arc::new(alloc, Term::abs(typ, body))?)
        }
        TermNode::App { fun, arg, .. } => {
            let fun = put_variable(alloc, under, v, fun)?;
            let arg = put_variable(alloc, under, v, arg)?;
            Ok(Arc::new(alloc, Term::app(fun, arg))?)
        }
        _ => Arc::try_clone(t),
    }
}

/// The body of a quantification with a schematic variable of this name and index put for the bound one.
fn specialised(
    alloc: Global,
    index: u32,
    name: u32,
    typ: &Typ,
    body: &Term,
) -> Result<Term, AllocError>
    ensures { IfOk result (λ t. t ≡ bounds.subst_bound body.now (tree.Var name index typ.now)) }
{
    let typ = typ.copy(alloc)?;
    let name = Name(name);
    let node = TermNode::Var { name, index, typ };
    let v = Arc::new(alloc, Term { node })?;
    let body = copied(alloc, body)?;
    let put = put_variable(alloc, 0, &v, &body)?;
    put.copy(alloc)
}

/// Lets the term go.
fn discard(_t: Term) {}

/// Puts the premises of the rule behind those of the list, and gives its conclusion: for each quantified variable there is a schematic one of the index, the first with this name.
pub fn strip(
    alloc: Global,
    index: u32,
    name: u32,
    rule: &Term,
    premises: &mut Vec<Term>,
) -> Result<Term, AllocError>
    ensures { IfOk result (λ c. IsStrippedOn index name rule.now premises.old.items premises.new.items c) }
{
    if let Some((premise, rest)) = as_implication(rule) {
        premises.push(premise.copy(alloc)?)?;
        return strip(alloc, index, name, rest, premises);
    }
    if let Some((typ, body)) = as_quantified(rule) {
        let next = one_more(name)?;
        let rest = specialised(alloc, index, name, typ, body)?;
        let conclusion = strip(alloc, index, next, &rest, premises);
        discard(rest);
        return conclusion;
    }
    rule.copy(alloc)
}

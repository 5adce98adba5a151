//! Rules lifted over the prefix of a subgoal.
ghost use Rattle.std.specs.Prelude.{◌≡◌, [], ◌∷◌, length, IfOk};
ghost use Rattle.pure_definitions.specs.Terms.Term as tree;
ghost use Rattle.pure_goal_laws.specs.Prefix.{parameters};
ghost use Rattle.pure_goal_laws.specs.Lifting as lifting;
ghost use Rattle.pure_goal_rules.specs.Shown.{seen, shown};

use crate::build::{count_parameters, one_more};
use crate::item::Item;
use pure_term::{Name, Term, TermNode, Typ, copied, index_above_of};
use std::alloc::{AllocError, Global};
use std::sync::Arc;

/// The type of functions from the item's type, where it is a parameter.
fn function_of_one(alloc: Global, item: &Item, range: Typ) -> Result<Typ, AllocError>
    ensures { IfOk result (λ T. T ≡ lifting.function_typ (parameters (seen item.now ∷ [])) range) }
{
    match item {
        Item::Parameter(typ) => {
            let domain = typ.copy(alloc)?;
            Typ::arrow(alloc, domain, range)
        }
        Item::Hypothesis(_) => Ok(range),
    }
}

/// The type of functions of the prefix's parameters, in order, to the type.
fn function_typ(alloc: Global, items: &[Item], range: &Typ) -> Result<Typ, AllocError>
    ensures { IfOk result (λ T. T ≡ lifting.function_typ (parameters (shown items.now)) range.now) }
{
    let Some((first, rest)) = items.split_first() else {
        return range.copy(alloc);
    };
    let inside = function_typ(alloc, rest, range)?;
    function_of_one(alloc, first, inside)
}

/// The function applied to as many bound variables as said, of which the last is the given one, and each before it is one higher.
fn applied_to_bounds(
    alloc: Global,
    count: u32,
    last: u32,
    function: Arc<Term>,
) -> Result<Arc<Term>, AllocError>
    ensures { IfOk result (λ t. t.value ≡ lifting.applied_to_bounds count last function.value) }
{
    if count == 0 {
        return Ok(function);
    }
    let above = one_more(last)?;
    let fun = applied_to_bounds(alloc, count - 1, above, function)?;
    let node = TermNode::Bound { place: last };
    let arg = Arc::new(alloc, Term { node })?;
    Ok(Arc::new(alloc, Term::app(fun, arg))?)
}

/// A schematic variable, lifted.
fn lifted_variable(
    alloc: Global,
    items: &[Item],
    under: u32,
    name: Name,
    index: u32,
    typ: &Typ,
) -> Result<Arc<Term>, AllocError>
    ensures { IfOk result (λ t. t.value ≡ lifting.lifted_under (parameters (shown items.now)) under (tree.Var name index typ.now)) }
{
    let count = count_parameters(items)?;
    let typ = function_typ(alloc, items, typ)?;
    let node = TermNode::Var { name, index, typ };
    let variable = Arc::new(alloc, Term { node })?;
    applied_to_bounds(alloc, count, under, variable)
}

/// The term under so many binders, lifted. A part without schematic variables is handed back as it is.
fn lifted_under(
    alloc: Global,
    items: &[Item],
    under: u32,
    t: &Arc<Term>,
) -> Result<Arc<Term>, AllocError>
    ensures { IfOk result (λ u. u.value ≡ lifting.lifted_under (parameters (shown items.now)) under t.now.value) }
{
    let whole: &Term = t;
    if index_above_of(whole) == 0 {
        return Arc::try_clone(t);
    }
    match &whole.node {
        TermNode::Var { name, index, typ } => {
            lifted_variable(alloc, items, under, *name, *index, typ)
        }
        TermNode::Abs { typ, body, .. } => {
            let deeper = one_more(under)?;
            let typ = typ.copy(alloc)?;
            let body = lifted_under(alloc, items, deeper, body)?;
            Ok(Arc::new(alloc, Term::abs(typ, body))?)
        }
        TermNode::App { fun, arg, .. } => {
            let fun = lifted_under(alloc, items, under, fun)?;
            let arg = lifted_under(alloc, items, under, arg)?;
            Ok(Arc::new(alloc, Term::app(fun, arg))?)
        }
        _ => Arc::try_clone(t),
    }
}

/// The term of a rule, lifted over the prefix's parameters.
pub fn lifted(alloc: Global, items: &[Item], t: &Term) -> Result<Term, AllocError>
    ensures { IfOk result (λ u. u ≡ lifting.lifted_behind (shown items.now) t.now) }
{
    if count_parameters(items)? == 0 {
        return t.copy(alloc);
    }
    let whole = copied(alloc, t)?;
    let lifted = lifted_under(alloc, items, 0, &whole)?;
    lifted.copy(alloc)
}

//! Narrowing a type to a sort.
ghost use Rattle.std.specs.Prelude.{◌≡◌, List, map, IfOk, OnOk, MatchOption};
ghost use Rattle.std.specs.Bool.{OnTrue};
ghost use Rattle.pure_text.specs.Lists.{IsIn};
ghost use Rattle.pure_definitions.specs.Types.Typ as tree;
ghost use Rattle.pure_definitions.specs.Types.Order.{IsOfSort};
ghost use Rattle.pure_definitions.specs.Terms.Subst.{typ_variable};
ghost use Rattle.pure_tunify.specs.declared.asks.Asked as declared;
ghost use Rattle.pure_tunify.specs.Unifiers.{IsFresh, IsOld};
ghost use Rattle.pure_tunify.specs.Asks.{HasNoInstance};
ghost use Rattle.pure_tunify.specs.Asking.{asked_variable, AreKnown};
ghost use Rattle.pure_tunify.specs.Working.{IsFreeOf, IsNarrowed};
ghost use Rattle.pure_tunify.specs.NarrowingStep as spec;
ghost use Rattle.pure_tunify.specs.NarrowingStep.{IsFreshlySet, IsTurn};

use crate::asking::{is_nothing_known, known_asked, more_asked};
use crate::asks::{Asked, asked_of};
use crate::resolve::copied;
use crate::settings::Settings;
use pure_order::Order;
use pure_typ::{Name, Sort, Typ, TypBind, TypMap, TypNode, instance_of};
use std::alloc::{AllocError, Global};
use std::collections::BTreeMap;

/// A schematic variable of this name, index and sort.
pub fn variable(alloc: Global, name: Name, index: u32, sort: &Sort) -> Result<Typ, AllocError>
    ensures { IfOk result (λ t. t ≡ tree.TVar name index sort.now) }
{
    let sort = sort.copy(alloc)?;
    Ok(Typ {
        node: TypNode::TVar { name, index, sort },
    })
}

/// Whether the type is a variable of the sort.
fn is_variable_of_sort(order: &Order, t: &Typ, sort: &Sort) -> bool
    ensures { OnTrue result (IsOfSort order.now t.now sort.now) }
{
    match &t.node {
        TypNode::TFree { sort: own, .. } => order.sort_below(own, sort),
        TypNode::TVar { sort: own, .. } => order.sort_below(own, sort),
        TypNode::Con { .. } => false,
    }
}

/// The entry that sets the variable to a fresh one of this sort.
fn fresh_bind(
    alloc: Global,
    settings: &Settings,
    asked: &Asked,
    sort: &Sort,
) -> Result<TypBind, AllocError>
    ensures { IfOk result (λ b. b ≡ spec.fresh_bind asked.now sort.now settings.now) }
{
    let own = asked.sort.copy(alloc)?;
    let image = variable(alloc, Name(settings.next()), settings.index(), sort)?;
    Ok(TypBind {
        name: asked.name,
        index: asked.index,
        sort: own,
        image,
    })
}

/// Sets the variable to a fresh one of this sort, in the settings and in the map.
fn set_fresh(
    alloc: Global,
    settings: &mut Settings,
    renamed: &mut TypMap,
    asked: &Asked,
    sort: &Sort,
) -> Result<(), AllocError>
    requires old { ¬ IsFresh settings.old.index settings.old.next (asked_variable asked.now) }
    requires unset { ¬ IsIn (asked_variable asked.now) (map typ_variable settings.old.sets) }
    requires new { ¬ IsIn (asked_variable asked.now) (map typ_variable renamed.old) }
    ensures { OnOk result (IsFreshlySet asked.now sort.now settings.old settings.new renamed.old renamed.new) }
{
    let Some(later) = settings.next().checked_add(1) else {
        return Err(AllocError);
    };
    let bind = fresh_bind(alloc, settings, asked, sort)?;
    let entry = copied(&bind, alloc)?;
    renamed.push(entry)?;
    settings.put(alloc, bind, later)?;
    Ok(())
}

/// The turn of a variable: it is set to a fresh one where more than its own sort is asked of it, and the map doesn't set it yet.
fn narrow_variable(
    order: &Order,
    alloc: Global,
    settings: &mut Settings,
    renamed: &mut TypMap,
    known: &BTreeMap<Typ, Sort>,
    asked: &Asked,
) -> Result<(), AllocError>
    requires old { ¬ IsFresh settings.old.index settings.old.next (asked_variable asked.now) }
    requires unset { ¬ IsIn (asked_variable asked.now) (map typ_variable renamed.old) → ¬ IsIn (asked_variable asked.now) (map typ_variable settings.old.sets) }
    ensures { (all : List declared.Asked) → AreKnown order.now all known.now → OnOk result (IsTurn order.now all asked.now settings.old settings.new renamed.old renamed.new) }
{
    match renamed.find(asked.name, asked.index, &asked.sort) {
        Some(_) => Ok(()),
        None => {
            let union = more_asked(order, alloc, known, asked)?;
            match union {
                None => Ok(()),
                Some(sort) => {
                    set_fresh(alloc, settings, renamed, asked, &sort)?;
                    Ok(())
                }
            }
        }
    }
}

/// Narrows a type in which no variable is set to a sort; none exactly where no instance of it is of the sort. What the sort
/// asks of the variables is asked once: of the fresh ones no more is asked than their sorts.
pub fn narrow(
    order: &Order,
    alloc: Global,
    settings: &mut Settings,
    sort: &Sort,
    t: Typ,
) -> Result<Option<Typ>, AllocError>
    requires old { IsOld settings.old.index settings.old.next t }
    requires free { IsFreeOf settings.old.sets t }
    ensures { IfOk result (λ o. MatchOption o (HasNoInstance order.now t sort.now) (λ u. IsNarrowed order.now sort.now settings.old settings.new t u)) }
{
    if sort.classes().is_empty() {
        return Ok(Some(t));
    }
    if is_variable_of_sort(order, &t, sort) {
        return Ok(Some(t));
    }
    let _ = settings.next();
    let found = asked_of(order, alloc, &t, sort)?;
    let Some(asked) = found else {
        return Ok(None);
    };
    let all = asked.as_slice();
    let known = known_asked(order, alloc, all)?;
    if is_nothing_known(&known) {
        return Ok(Some(t));
    }
    let mut renamed = TypMap::empty(alloc);
    for one in all {
        narrow_variable(order, alloc, settings, &mut renamed, &known, one)?;
    }
    let u = instance_of(alloc, &t, &renamed)?;
    Ok(Some(u))
}

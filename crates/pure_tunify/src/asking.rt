//! The variables of which more is asked than their own sorts.
ghost use Rattle.std.specs.Prelude.{◌≡◌, List, [], IfOk, OnOk, MatchOption};
ghost use Rattle.std.specs.Bool.{OnTrue};
ghost use Rattle.std.specs.BTreeMap.{get};
ghost use Rattle.pure_typ.specs.SortUnion.{IsSortUnion};
ghost use Rattle.pure_definitions.specs.Models.Comparison.{typ_cmp};
ghost use Rattle.pure_tunify.specs.declared.asks.Asked as declared;
ghost use Rattle.pure_tunify.specs.Asking.{asked_variable, AsksNoMore, IsUnionAsked, AreKnown, classes_known, IsKnownHere};

use crate::asks::Asked;
use crate::narrow::variable;
use pure_order::Order;
use pure_typ::{Sort, Typ};
use std::alloc::{AllocError, Global};
use std::collections::BTreeMap;

/// The classes that are known to be asked of the variable, or its own, and those that are asked of it here.
fn all_here(
    alloc: Global,
    known: &BTreeMap<Typ, Sort>,
    typ: &Typ,
    asked: &Asked,
) -> Result<Sort, AllocError>
    ensures { IfOk result (IsSortUnion (classes_known asked.now (get typ_cmp known.now typ.now)) asked.now.asked) }
{
    match known.get(typ) {
        None => {
            let all = asked.sort.union(alloc, &asked.asked)?;
            Ok(all)
        }
        Some(before) => {
            let all = before.union(alloc, &asked.asked)?;
            Ok(all)
        }
    }
}

/// Adds what is asked of the variable here, where it is more than its own sort.
fn know_asked(
    order: &Order,
    alloc: Global,
    known: &mut BTreeMap<Typ, Sort>,
    asked: &Asked,
) -> Result<(), AllocError>
    ensures { OnOk result (IsKnownHere order.now asked.now known.old known.new) }
{
    if order.sort_below(&asked.sort, &asked.asked) {
        return Ok(());
    }
    let typ = variable(alloc, asked.name, asked.index, &asked.sort)?;
    let all = all_here(alloc, known, &typ, asked)?;
    known.insert(typ, all)?;
    Ok(())
}

/// What is asked of each variable of which somewhere in the list more is asked than its own sort.
pub fn known_asked(
    order: &Order,
    alloc: Global,
    asked: &[Asked],
) -> Result<BTreeMap<Typ, Sort>, AllocError>
    ensures { IfOk result (λ known. AreKnown order.now asked.now known) }
{
    let mut known = BTreeMap::new(alloc);
    for one in asked {
        know_asked(order, alloc, &mut known, one)?;
    }
    Ok(known)
}

/// Whether of no variable more is asked.
pub fn is_nothing_known(known: &BTreeMap<Typ, Sort>) -> bool
    ensures { OnTrue result (known.now.entries ≡ []) }
{
    known.is_empty()
}

/// The reduced union of the variable's own sort and all that is asked of it; none exactly where its own sort is below all
/// that is asked of it.
pub fn more_asked(
    order: &Order,
    alloc: Global,
    known: &BTreeMap<Typ, Sort>,
    asked: &Asked,
) -> Result<Option<Sort>, AllocError>
    ensures { (all : List declared.Asked) → AreKnown order.now all known.now
        → IfOk result (λ o. MatchOption o (AsksNoMore order.now all asked.now) (λ u. (¬ AsksNoMore order.now all asked.now) × IsUnionAsked order.now all asked.now u)) }
{
    let typ = variable(alloc, asked.name, asked.index, &asked.sort)?;
    match known.get(&typ) {
        None => Ok(None),
        Some(all) => {
            if order.sort_below(&asked.sort, all) {
                return Ok(None);
            }
            let union = order.reduce(alloc, all)?;
            let _ = union.classes();
            Ok(Some(union))
        }
    }
}

//! The unifier of a success.
ghost use Rattle.std.specs.Prelude.{◌≡◌, ◌++◌, ◌∷◌, [], reverse, IfOk, OnOk};
ghost use Rattle.pure_text.specs.Lists.{Each};
ghost use Rattle.pure_unify_definitions.specs.Node as nodes;
ghost use Rattle.pure_unify_steps.specs.Held.{IsNode};
ghost use Rattle.pure_unify.specs.Later.{IsSingle};
ghost use Rattle.pure_unify.specs.Resolved.{IsUnifierAnswer, HasPairs};

use crate::resolve::{Later, are_distinct, later_of};
use pure_term::{Grow, TermBind, TermMap, TypBind, TypMap};
use pure_theorem::Pair;
use pure_unify_steps::Node;
use std::alloc::{AllocError, Global};

/// A unifier: what type variables and schematic variables become, in the order in which they were set, and the pairs that are left, whose sides are flexible.
#[derive(Drop)]
pub struct Unifier {
    pub typs: TypMap,
    pub terms: TermMap,
    pub flexflex: Vec<Pair>,
}

/// A copy of the entry.
fn copied(alloc: Global, bind: &TypBind) -> Result<TypBind, AllocError>
    ensures { IfOk result (λ b. b ≡ bind.now) }
{
    let sort = bind.sort.copy(alloc)?;
    let image = bind.image.copy(alloc)?;
    Ok(TypBind {
        name: bind.name,
        index: bind.index,
        sort,
        image,
    })
}

/// The map of the entries, the last one first.
fn typs_in_order(alloc: Global, typs: &TypMap) -> Result<TypMap, AllocError>
    ensures { IfOk result (λ map. map ≡ reverse typs.now) }
{
    let binds = typs.binds();
    let mut map = TypMap::empty(alloc);
    let mut left = binds.len();
    while left > 0 {
        left -= 1;
        let entry = copied(alloc, &binds[left])?;
        map.push(entry)?;
    }
    Ok(map)
}

/// Puts the entry behind the others. No variable is set twice on a path; where one is, memory is wanted.
fn add_entry(terms: &mut TermMap, entry: TermBind) -> Result<(), AllocError>
    ensures { OnOk result (terms.new ≡ terms.old ++ entry ∷ []) }
{
    if terms.find(entry.name, entry.index, &entry.typ).is_some() {
        return Err(AllocError);
    }
    terms.push(entry)?;
    Ok(())
}

/// The map of the entries, the last one first.
fn terms_in_order(alloc: Global, entries: Vec<TermBind>) -> Result<TermMap, AllocError>
    ensures { IfOk result (λ map. map ≡ reverse entries.items) }
{
    let mut entries = entries;
    let mut map = TermMap::empty(alloc);
    while let Some(entry) = entries.pop() {
        add_entry(&mut map, entry)?;
    }
    Ok(map)
}

/// The unifier of a success: `Big` exactly where one of its images isn't within the limits.
pub fn unifier_of(alloc: Global, node: Node) -> Result<Unifier, Grow>
    requires { Each IsSingle node.path.settings.items }
    ensures answer { (m : nodes.Node) → IsNode node m → IsUnifierAnswer m result }
    ensures pairs { IfOk result (HasPairs node.pairs.items) }
{
    are_distinct(&node.path.settings);
    let later = match later_of(alloc, &node.path.settings) {
        Ok(later) => later,
        Err(fault) => return Err(fault),
    };
    let typs = typs_in_order(alloc, &later.typs)?;
    let terms = terms_in_order(alloc, later.terms)?;
    Ok(Unifier {
        typs,
        terms,
        flexflex: node.pairs,
    })
}

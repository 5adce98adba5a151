//! Unifiers of pairs of types, and the pairs that decide where there is none.
use crate::asked::{unifier, unifier_from};
use crate::read::{number, typs, written};
use pure_order::Order;
use pure_rows::Fault;
use pure_tunify::{TypFault, TypPair};
use pure_typ::{Typ, TypMap, TypNode};
use std::alloc::Global;

/// What is wanted of pairs: the entries of the unifier, each a variable and its image, or the pair that decides.
#[derive(Clone, Copy)]
enum Wanted<'w> {
    Unifier(&'w [u8]),
    NoTyping(u32),
    Big(u32),
}

/// What the field wants: `none N`, `big N` or entries.
fn wanted_of(field: &[u8]) -> Result<Wanted<'_>, Fault> {
    if let Some(digits) = field.strip_prefix(b"none ") {
        return Ok(Wanted::NoTyping(number(digits)?));
    }
    match field.strip_prefix(b"big ") {
        Some(digits) => Ok(Wanted::Big(number(digits)?)),
        None => Ok(Wanted::Unifier(written(field))),
    }
}

/// The types, two and two.
fn paired(alloc: Global, typs: Vec<Typ>) -> Result<Vec<TypPair>, Fault> {
    let mut typs = typs;
    let mut pairs = Vec::new(alloc);
    while let Some(right) = typs.pop() {
        let Some(left) = typs.pop() else {
            return Err(Fault::Unreadable);
        };
        pairs.push(TypPair { left, right })?;
    }
    pairs.reverse();
    Ok(pairs)
}

/// The types of the text, two and two.
fn pairs(alloc: Global, text: &[u8]) -> Result<Vec<TypPair>, Fault> {
    paired(alloc, typs(alloc, text)?)
}

/// Whether the map has the entry.
fn has_entry(map: &TypMap, variable: &Typ, image: &Typ) -> bool {
    match &variable.node {
        TypNode::TVar { name, index, sort } => match map.find(*name, *index, sort) {
            Some(found) => found == image,
            None => false,
        },
        _ => false,
    }
}

/// Whether the map has these entries alone.
fn has_entries(map: &TypMap, entries: &[TypPair]) -> bool {
    for entry in entries {
        if !has_entry(map, &entry.left, &entry.right) {
            return false;
        }
    }
    entries.len() == map.binds().len()
}

/// Whether the unifier is the one that is wanted.
fn is_map(alloc: Global, map: &TypMap, wanted: Wanted) -> Result<bool, Fault> {
    match wanted {
        Wanted::Unifier(text) => Ok(has_entries(map, &pairs(alloc, text)?)),
        _ => Ok(false),
    }
}

/// Whether the fault is the one that is wanted.
fn is_fault(fault: &TypFault, wanted: Wanted) -> Result<bool, Fault> {
    match (fault, wanted) {
        (TypFault::NoTyping { index }, Wanted::NoTyping(at)) => Ok(*index == at),
        (TypFault::Big { index }, Wanted::Big(at)) => Ok(*index == at),
        (TypFault::Memory, _) => Err(Fault::Memory),
        _ => Ok(false),
    }
}

/// Whether the answer is what is wanted.
fn is_wanted(
    alloc: Global,
    answer: &Result<TypMap, TypFault>,
    wanted: Wanted,
) -> Result<bool, Fault> {
    match answer {
        Ok(map) => is_map(alloc, map, wanted),
        Err(fault) => is_fault(fault, wanted),
    }
}

/// Whether `unify` answers so.
pub(crate) fn is_unified(
    alloc: Global,
    order: &Order,
    given: &[u8],
    wanted: &[u8],
) -> Result<bool, Fault> {
    let wanted = wanted_of(wanted)?;
    let given = pairs(alloc, written(given))?;
    match unifier(alloc, order, &given) {
        Some(answer) => is_wanted(alloc, &answer, wanted),
        None => Err(Fault::Unreadable),
    }
}

/// Whether the answer, with the first name that isn't used, is what is wanted.
fn is_named(
    alloc: Global,
    answer: &Result<(TypMap, u32), TypFault>,
    wanted: Wanted,
    name: Option<u32>,
) -> Result<bool, Fault> {
    match answer {
        Ok((map, next)) => Ok(name == Some(*next) && is_map(alloc, map, wanted)?),
        Err(fault) => is_fault(fault, wanted),
    }
}

/// Whether `unify_from` answers so.
pub(crate) fn is_unified_from(
    alloc: Global,
    order: &Order,
    from: u32,
    given: &[u8],
    wanted: &[u8],
    name: Option<u32>,
) -> Result<bool, Fault> {
    let wanted = wanted_of(wanted)?;
    let given = pairs(alloc, written(given))?;
    match unifier_from(alloc, order, &given, from) {
        Some(answer) => is_named(alloc, &answer, wanted, name),
        None => Err(Fault::Unreadable),
    }
}

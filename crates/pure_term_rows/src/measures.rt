//! The types and the measures of terms.
use crate::read::{term, typ};
use pure_rows::Fault;
use pure_term::{Term, Typ, TypeFault, depth, occurs, size, typ_of};
use std::alloc::Global;

/// Whether the answer is this type.
fn is_typ(found: &Result<Typ, TypeFault>, wanted: &Typ) -> Result<bool, Fault> {
    match found {
        Ok(typ) => Ok(typ == wanted),
        Err(TypeFault::NotTyped { .. }) => Ok(false),
        Err(TypeFault::Memory) => Err(Fault::Memory),
    }
}

/// Whether the term has the type.
pub(crate) fn has_typ(alloc: Global, t: &[u8], wanted: &[u8]) -> Result<bool, Fault> {
    let t = term(alloc, t)?;
    let wanted = typ(alloc, wanted)?;
    is_typ(&typ_of(alloc, &t), &wanted)
}

/// Whether the answer is that the node at this place is at fault.
fn is_typ_fault(found: &Result<Typ, TypeFault>, wanted: u32) -> Result<bool, Fault> {
    match found {
        Ok(_) => Ok(false),
        Err(TypeFault::NotTyped { place }) => Ok(*place == wanted),
        Err(TypeFault::Memory) => Err(Fault::Memory),
    }
}

/// Whether the term has no type, since its node at this place is at fault.
pub(crate) fn has_typ_fault(alloc: Global, t: &[u8], wanted: u32) -> Result<bool, Fault> {
    let t = term(alloc, t)?;
    is_typ_fault(&typ_of(alloc, &t), wanted)
}

/// Whether the term has this size and depth.
pub(crate) fn are_measures(alloc: Global, t: &[u8], nodes: u32, path: u32) -> Result<bool, Fault> {
    let t = term(alloc, t)?;
    Ok(size(&t) == nodes && depth(&t) == path)
}

/// Whether `occurs` answers so.
fn is_answer(part: &Term, t: &Term, wanted: &[u8]) -> Result<bool, Fault> {
    match wanted {
        b"yes" => Ok(occurs(part, t)),
        b"no" => Ok(!occurs(part, t)),
        _ => Err(Fault::Unreadable),
    }
}

/// Whether `occurs` answers so for the terms of the texts.
pub(crate) fn is_occurrence(
    alloc: Global,
    part: &[u8],
    t: &[u8],
    wanted: &[u8],
) -> Result<bool, Fault> {
    let part = term(alloc, part)?;
    let t = term(alloc, t)?;
    is_answer(&part, &t, wanted)
}

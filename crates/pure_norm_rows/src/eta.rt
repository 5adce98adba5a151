//! Eta-normal forms and long forms.
use crate::asked::is_normal;
use crate::read::term;
use pure_eta::{eta_norm, long_form};
use pure_rows::Fault;
use pure_term::{Grow, Term, TypeFault, depth, size, typ_of};
use std::alloc::Global;

/// A long form, or none where it isn't within the limits.
type Long = Option<Term>;

/// Whether `eta_norm` answers so.
pub(crate) fn is_eta_normal(alloc: Global, t: &[u8], wanted: &[u8]) -> Result<bool, Fault> {
    let t = term(alloc, t)?;
    let wanted = term(alloc, wanted)?;
    Ok(eta_norm(alloc, &t)? == wanted)
}

/// The answer of `long_form`.
fn answered(answer: Result<Term, Grow>) -> Result<Long, Fault> {
    match answer {
        Ok(t) => Ok(Some(t)),
        Err(Grow::Big) => Ok(None),
        Err(Grow::Memory) => Err(Fault::Memory),
    }
}

/// What `long_form` answers for a typed beta-normal term; of others it isn't asked.
fn long_of(alloc: Global, t: &Term) -> Result<Long, Fault> {
    match typ_of(alloc, t) {
        Ok(_) if is_normal(t) => answered(long_form(alloc, t)),
        Err(TypeFault::Memory) => Err(Fault::Memory),
        _ => Err(Fault::Unreadable),
    }
}

/// What `long_form` answers for the term of the text.
fn long_of_text(alloc: Global, t: &[u8]) -> Result<Long, Fault> {
    let t = term(alloc, t)?;
    long_of(alloc, &t)
}

/// Whether the long form is this term.
fn is_term(long: &Long, wanted: &Term) -> bool {
    match long {
        Some(t) => t == wanted,
        None => false,
    }
}

/// Whether `long_form` answers so: `big` or a term.
pub(crate) fn is_long(alloc: Global, t: &[u8], wanted: &[u8]) -> Result<bool, Fault> {
    let long = long_of_text(alloc, t)?;
    match wanted {
        b"big" => Ok(long.is_none()),
        _ => Ok(is_term(&long, &term(alloc, wanted)?)),
    }
}

/// Whether the long form has this size and depth.
fn is_of_size(long: &Long, nodes: u32, deep: u32) -> bool {
    match long {
        Some(t) => size(t) == nodes && depth(t) == deep,
        None => false,
    }
}

/// Whether the long form of the term has this size and depth.
pub(crate) fn has_long_size(
    alloc: Global,
    t: &[u8],
    nodes: Option<u32>,
    deep: Option<u32>,
) -> Result<bool, Fault> {
    let (Some(nodes), Some(deep)) = (nodes, deep) else {
        return Err(Fault::Unreadable);
    };
    Ok(is_of_size(&long_of_text(alloc, t)?, nodes, deep))
}

//! Variables and their images.
use pure_notation::{NotationFault, read};
use pure_term::{Term, TermBind, TermMap, TermNode};
use std::alloc::{AllocError, Global};

/// Puts the variable and its image behind the terms.
fn push_entry(alloc: Global, terms: &mut Vec<Term>, bind: &TermBind) -> Result<(), AllocError> {
    let typ = bind.typ.copy(alloc)?;
    let node = TermNode::Var {
        name: bind.name,
        index: bind.index,
        typ,
    };
    terms.push(Term { node })?;
    terms.push(bind.image.copy(alloc)?)?;
    Ok(())
}

/// Puts the map's variables and images behind the others.
fn push_entries(alloc: Global, terms: &mut Vec<Term>, map: &TermMap) -> Result<(), AllocError> {
    for bind in map.binds() {
        push_entry(alloc, terms, bind)?;
    }
    Ok(())
}

/// Whether the map's variables and images are those of the text, one after another.
pub(crate) fn has_entries(
    alloc: Global,
    map: &TermMap,
    text: &[u8],
) -> Result<bool, NotationFault> {
    let wanted = read(alloc, text)?;
    let mut found = Vec::new(alloc);
    push_entries(alloc, &mut found, map)?;
    Ok(found.as_slice() == wanted.terms.as_slice() && wanted.typs.is_empty())
}

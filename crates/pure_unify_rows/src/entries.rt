//! Variables and their images.
use pure_notation::{NotationFault, Parts, read};
use pure_term::{Term, TermBind, TermMap, TermNode, TypMap};
use pure_typ::{Typ, TypBind, TypNode};
use std::alloc::{AllocError, Global};

/// Puts the variable and its image behind the types.
fn push_typ(alloc: Global, typs: &mut Vec<Typ>, bind: &TypBind) -> Result<(), AllocError> {
    let sort = bind.sort.copy(alloc)?;
    let node = TypNode::TVar {
        name: bind.name,
        index: bind.index,
        sort,
    };
    typs.push(Typ { node })?;
    typs.push(bind.image.copy(alloc)?)?;
    Ok(())
}

/// Puts the variable and its image behind the terms.
fn push_term(alloc: Global, terms: &mut Vec<Term>, bind: &TermBind) -> Result<(), AllocError> {
    let typ = bind.typ.copy(alloc)?;
    let node = TermNode::Var {
        name: bind.name,
        index: bind.index,
        typ,
    };
    terms.push(Term { node })?;
    terms.push(bind.image.copy(alloc)?)?;
    Ok(())
}

/// No entries.
pub(crate) fn none(alloc: Global) -> Parts {
    Parts {
        typs: Vec::new(alloc),
        terms: Vec::new(alloc),
    }
}

/// Puts the map's variables and images behind the others.
pub(crate) fn push_typs(alloc: Global, found: &mut Parts, map: &TypMap) -> Result<(), AllocError> {
    for bind in map.binds() {
        push_typ(alloc, &mut found.typs, bind)?;
    }
    Ok(())
}

/// Puts the map's variables and images behind the others.
pub(crate) fn push_terms(
    alloc: Global,
    found: &mut Parts,
    map: &TermMap,
) -> Result<(), AllocError> {
    for bind in map.binds() {
        push_term(alloc, &mut found.terms, bind)?;
    }
    Ok(())
}

/// Whether these are the variables and images of the text, types apart from terms.
pub(crate) fn are_entries(
    alloc: Global,
    found: &Parts,
    text: &[u8],
) -> Result<bool, NotationFault> {
    let wanted = read(alloc, text)?;
    Ok(
        found.typs.as_slice() == wanted.typs.as_slice()
            && found.terms.as_slice() == wanted.terms.as_slice(),
    )
}

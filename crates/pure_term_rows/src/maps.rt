//! Maps of variables, written as lists in which each variable stands before its image.
use crate::read::{terms, typs};
use pure_rows::Fault;
use pure_term::{Term, TermBind, TermMap, TermNode, Typ, TypBind, TypMap, TypNode};
use std::alloc::Global;

/// The bind of a schematic variable to its image.
fn term_bind(alloc: Global, variable: &Term, image: &Term) -> Result<TermBind, Fault> {
    match &variable.node {
        TermNode::Var { name, index, typ } => Ok(TermBind {
            name: *name,
            index: *index,
            typ: typ.copy(alloc)?,
            image: image.copy(alloc)?,
        }),
        _ => Err(Fault::Unreadable),
    }
}

/// Adds the bind, whose variable the map may not replace yet.
fn push_term(map: &mut TermMap, bind: TermBind) -> Result<(), Fault> {
    match map.find(bind.name, bind.index, &bind.typ) {
        Some(_) => Err(Fault::Unreadable),
        None => Ok(map.push(bind)?),
    }
}

/// Adds the bind of a variable and its image.
fn push_terms(alloc: Global, map: &mut TermMap, pair: &[Term]) -> Result<(), Fault> {
    match pair {
        [variable, image] => push_term(map, term_bind(alloc, variable, image)?),
        _ => Err(Fault::Unreadable),
    }
}

/// The term map of the text.
pub(crate) fn term_map(alloc: Global, text: &[u8]) -> Result<TermMap, Fault> {
    let terms = terms(alloc, text)?;
    let mut map = TermMap::empty(alloc);
    for pair in terms.chunks(2) {
        push_terms(alloc, &mut map, pair)?;
    }
    Ok(map)
}

/// The bind of a schematic type variable to its image.
fn typ_bind(alloc: Global, variable: &Typ, image: &Typ) -> Result<TypBind, Fault> {
    match &variable.node {
        TypNode::TVar { name, index, sort } => Ok(TypBind {
            name: *name,
            index: *index,
            sort: sort.copy(alloc)?,
            image: image.copy(alloc)?,
        }),
        _ => Err(Fault::Unreadable),
    }
}

/// Adds the bind, whose variable the map may not replace yet.
fn push_typ(map: &mut TypMap, bind: TypBind) -> Result<(), Fault> {
    match map.find(bind.name, bind.index, &bind.sort) {
        Some(_) => Err(Fault::Unreadable),
        None => Ok(map.push(bind)?),
    }
}

/// Adds the bind of a variable and its image.
fn push_typs(alloc: Global, map: &mut TypMap, pair: &[Typ]) -> Result<(), Fault> {
    match pair {
        [variable, image] => push_typ(map, typ_bind(alloc, variable, image)?),
        _ => Err(Fault::Unreadable),
    }
}

/// The type map of the text.
pub(crate) fn typ_map(alloc: Global, text: &[u8]) -> Result<TypMap, Fault> {
    let typs = typs(alloc, text)?;
    let mut map = TypMap::empty(alloc);
    for pair in typs.chunks(2) {
        push_typs(alloc, &mut map, pair)?;
    }
    Ok(map)
}

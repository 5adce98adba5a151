//! Maps of types and of terms, each variable before its image.
use pure_term::{Term, TermBind, TermMap, TermNode, Typ, TypBind, TypMap, TypNode};
use std::alloc::Global;

/// The entry of the variable and its image; none where it is no schematic variable.
fn typ_bind(alloc: Global, v: &Typ, image: &Typ) -> Option<TypBind> {
    match &v.node {
        TypNode::TVar { name, index, sort } => Some(TypBind {
            name: *name,
            index: *index,
            sort: sort.copy(alloc).ok()?,
            image: image.copy(alloc).ok()?,
        }),
        _ => None,
    }
}

/// Adds the entry of the variable and its image, if the map has none of it.
fn add_typ(alloc: Global, map: &mut TypMap, v: &Typ, image: &Typ) -> Option<()> {
    let bind = typ_bind(alloc, v, image)?;
    if map.find(bind.name, bind.index, &bind.sort).is_some() {
        return None;
    }
    map.push(bind).ok()
}

/// The map of the types, each schematic variable before its image; none where they make no map, or there is no memory.
pub fn typ_map(alloc: Global, typs: &[Typ]) -> Option<TypMap> {
    if typs.len() % 2 != 0 {
        return None;
    }
    let mut map = TypMap::empty(alloc);
    for i in 0..typs.len() / 2 {
        add_typ(alloc, &mut map, &typs[2 * i], &typs[2 * i + 1])?;
    }
    Some(map)
}

/// The entry of the variable and its image; none where it is no schematic variable.
fn term_bind(alloc: Global, v: &Term, image: &Term) -> Option<TermBind> {
    match &v.node {
        TermNode::Var { name, index, typ } => Some(TermBind {
            name: *name,
            index: *index,
            typ: typ.copy(alloc).ok()?,
            image: image.copy(alloc).ok()?,
        }),
        _ => None,
    }
}

/// Adds the entry of the variable and its image, if the map has none of it.
fn add_term(alloc: Global, map: &mut TermMap, v: &Term, image: &Term) -> Option<()> {
    let bind = term_bind(alloc, v, image)?;
    if map.find(bind.name, bind.index, &bind.typ).is_some() {
        return None;
    }
    map.push(bind).ok()
}

/// The map of the terms, each schematic variable before its image; none where they make no map, or there is no memory.
pub fn term_map(alloc: Global, terms: &[Term]) -> Option<TermMap> {
    if terms.len() % 2 != 0 {
        return None;
    }
    let mut map = TermMap::empty(alloc);
    for i in 0..terms.len() / 2 {
        add_term(alloc, &mut map, &terms[2 * i], &terms[2 * i + 1])?;
    }
    Some(map)
}

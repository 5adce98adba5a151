//! Names of fixed variables.
use pure_term::{Name, Term, TermNode, Typ, TypNode};
use std::alloc::Global;

/// The name of a fixed type variable.
fn fixed_typ(t: &Typ) -> Option<Name> {
    match &t.node {
        TypNode::TFree { name, .. } => Some(*name),
        _ => None,
    }
}

/// The name of a fixed variable.
fn fixed(t: &Term) -> Option<Name> {
    match &t.node {
        TermNode::Free { name, .. } => Some(*name),
        _ => None,
    }
}

/// The names of the types, if all are fixed variables.
pub(crate) fn typ_names(alloc: Global, typs: &[Typ]) -> Option<Vec<Name>> {
    let mut names = Vec::new(alloc);
    for t in typs {
        names.push(fixed_typ(t)?).ok()?;
    }
    Some(names)
}

/// The names of the terms, if all are fixed variables.
pub(crate) fn term_names(alloc: Global, terms: &[Term]) -> Option<Vec<Name>> {
    let mut names = Vec::new(alloc);
    for t in terms {
        names.push(fixed(t)?).ok()?;
    }
    Some(names)
}

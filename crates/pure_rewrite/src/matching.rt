//! Terms as instances of patterns. No contract says so: who puts the entries in looks at what comes of it.
use pure_kernel::{Name, Term, TermBind, TermMap, TermNode, Typ, are_same, are_same_typs};
use std::alloc::{AllocError, Global};

/// Whether the variable may become the term; if so, the entries grow by that.
fn match_variable(
    alloc: Global,
    name: Name,
    index: u32,
    typ: &Typ,
    t: &Term,
    binds: &mut TermMap,
) -> Result<bool, AllocError> {
    if let Some(image) = binds.find(name, index, typ) {
        return Ok(are_same(image, t));
    }
    let typ = typ.copy(alloc)?;
    let image = t.copy(alloc)?;
    binds.push(TermBind {
        name,
        index,
        typ,
        image,
    })?;
    Ok(true)
}

/// Whether the pattern may become the term by terms put for its schematic variables; if so, the entries grow by these.
pub(crate) fn match_term(
    alloc: Global,
    pattern: &Term,
    t: &Term,
    binds: &mut TermMap,
) -> Result<bool, AllocError> {
    match (&pattern.node, &t.node) {
        (TermNode::Var { name, index, typ }, _) => {
            match_variable(alloc, *name, *index, typ, t, binds)
        }
        (TermNode::App { fun, arg, .. }, TermNode::App { fun: f, arg: x, .. }) => {
            Ok(match_term(alloc, fun, f, binds)? && match_term(alloc, arg, x, binds)?)
        }
        (
            TermNode::Abs { typ, body, .. },
            TermNode::Abs {
                typ: other,
                body: b,
                ..
            },
        ) => { Ok(are_same_typs(typ, other) && match_term(alloc, body, b, binds)?) }
        _ => Ok(are_same(pattern, t)),
    }
}

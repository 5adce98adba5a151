//! Pairs whose equal large arguments are one part in memory. A setting is put into each argument anew, so that those of many pairs are equal and apart.
ghost use Rattle.std.specs.Prelude.{◌≡◌, IfOk, IfSome};
ghost use Rattle.std.specs.Bool.{OnTrue};

use pure_term::{Term, TermNode, copied, whole_depth, whole_size};
use pure_theorem::{Pair, are_same};
use pure_unify_steps::Node;
use std::alloc::{AllocError, Global};
use std::sync::Arc;

/// Parts that are smaller are left as they are.
const LARGE: u64 = 32;

/// How many parts are looked through.
const MANY: usize = 16;

/// Whether the terms are equal. Most that differ are told by their measures.
fn is_equal(t: &Term, u: &Term) -> bool
    ensures { OnTrue result (t.now ≡ u.now) }
{
    if whole_size(t) != whole_size(u) {
        return false;
    }
    if whole_depth(t) != whole_depth(u) {
        return false;
    }
    are_same(t, u)
}

/// One of the parts that equals the term.
fn equal_among<'p>(parts: &'p [Arc<Term>], t: &Term) -> Option<&'p Arc<Term>>
    ensures { IfSome result (λ part. part.now.value ≡ t.now) }
{
    for part in parts {
        if is_equal(part, t) {
            return Some(part);
        }
    }
    None
}

/// Puts the part behind the others, where they aren't many.
fn keep(parts: &mut Vec<Arc<Term>>, part: &Arc<Term>) -> Result<(), AllocError> {
    if parts.len() < MANY {
        parts.push(Arc::try_clone(part)?)?;
    }
    Ok(())
}

/// The part, as it stands among the others where it does.
fn as_kept(parts: &mut Vec<Arc<Term>>, part: &Arc<Term>) -> Result<Arc<Term>, AllocError>
    ensures { IfOk result (λ u. u.value ≡ part.now.value) }
{
    let whole: &Term = part;
    if whole_size(whole) < LARGE {
        return Arc::try_clone(part);
    }
    if let Some(other) = equal_among(parts.as_slice(), whole) {
        return Arc::try_clone(other);
    }
    keep(parts, part)?;
    Arc::try_clone(part)
}

/// The side with the arguments of its head as they are kept.
fn shared_arguments(
    alloc: Global,
    parts: &mut Vec<Arc<Term>>,
    t: &Arc<Term>,
) -> Result<Arc<Term>, AllocError>
    ensures { IfOk result (λ u. u.value ≡ t.now.value) }
{
    let whole: &Term = t;
    if whole_size(whole) < LARGE {
        return Arc::try_clone(t);
    }
    match &whole.node {
        TermNode::Abs { typ, body, .. } => {
            let body = shared_arguments(alloc, parts, body)?;
            let typ = typ.copy(alloc)?;
            Ok(Arc::new(alloc, Term::abs(typ, body))?)
        }
        TermNode::App { fun, arg, .. } => {
            let fun = shared_arguments(alloc, parts, fun)?;
            let arg = as_kept(parts, arg)?;
            Ok(Arc::new(alloc, Term::app(fun, arg))?)
        }
        _ => Arc::try_clone(t),
    }
}

/// The side with its parts as they are kept.
fn shared_side(alloc: Global, parts: &mut Vec<Arc<Term>>, side: &Term) -> Result<Term, AllocError>
    ensures { IfOk result (λ u. u ≡ side.now) }
{
    if whole_size(side) < LARGE {
        return Ok(side.copy(alloc)?);
    }
    let side = copied(alloc, side)?;
    let made = shared_arguments(alloc, parts, &side)?;
    Ok(made.copy(alloc)?)
}

/// The pair with its parts as they are kept.
fn shared_pair(alloc: Global, parts: &mut Vec<Arc<Term>>, pair: &Pair) -> Result<Pair, AllocError>
    ensures { IfOk result (λ p. p ≡ pair.now) }
{
    let left = shared_side(alloc, parts, &pair.left)?;
    let right = shared_side(alloc, parts, &pair.right)?;
    Ok(Pair { left, right })
}

/// The same pairs, of which equal large arguments are one part in memory.
fn shared_pairs(alloc: Global, pairs: &[Pair]) -> Result<Vec<Pair>, AllocError>
    ensures { IfOk result (λ made. made.items ≡ pairs.now) }
{
    let mut parts = Vec::new(alloc);
    let mut made = Vec::with_capacity(alloc, pairs.len())?;
    for pair in pairs {
        made.push(shared_pair(alloc, &mut parts, pair)?)?;
    }
    Ok(made)
}

/// The same node, of which equal large arguments are one part in memory.
pub fn shared_node(alloc: Global, node: Node) -> Result<Node, AllocError>
    ensures pairs { IfOk result (λ made. made.pairs.items ≡ node.pairs.items) }
    ensures path { IfOk result (λ made. made.path ≡ node.path) }
{
    let Node { pairs, path } = node;
    let pairs = shared_pairs(alloc, &pairs)?;
    Ok(Node { pairs, path })
}

//! Tests of what the calls ask of the terms that they are given.
ghost use Rattle.std.specs.Prelude.{IsTrue};
ghost use Rattle.pure_definitions.specs.Reduction.Beta.{IsAbs, IsBetaNormal};
ghost use Rattle.pure_definitions.specs.Terms.Bounds.{IsClosedUnder};

use pure_term::{Term, TermNode};

/// Whether the term has no loose bound variable under so many binders.
pub(crate) fn is_closed(t: &Term, binders: u32) -> bool
    ensures { IsTrue result → IsClosedUnder binders t.now }
{
    match &t.node {
        TermNode::Bound { place } => *place < binders,
        TermNode::Abs { body, .. } => binders < u32::MAX && is_closed(body, binders + 1),
        TermNode::App { fun, arg, .. } => is_closed(fun, binders) && is_closed(arg, binders),
        _ => true,
    }
}

/// Whether the term is an abstraction.
fn is_abs(t: &Term) -> bool
    ensures { IsAbs t.now → IsTrue result }
{
    match &t.node {
        TermNode::Abs { .. } => true,
        _ => false,
    }
}

/// Whether the term has no beta redex.
pub(crate) fn is_normal(t: &Term) -> bool
    ensures { IsTrue result → IsBetaNormal t.now }
{
    match &t.node {
        TermNode::Abs { body, .. } => is_normal(body),
        TermNode::App { fun, arg, .. } => !is_abs(fun) && is_normal(fun) && is_normal(arg),
        _ => true,
    }
}

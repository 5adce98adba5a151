//! Tests of what the calls ask of the terms that they are given.
ghost use Rattle.std.specs.Prelude.{IsTrue};
ghost use Rattle.pure_definitions.specs.Terms.Conditions.{IsLiftable, IsPuttable, IsVariable};

use pure_term::{Term, TermNode};

/// Whether the term can be lifted by so much from this place.
pub(crate) fn can_lift(t: &Term, by: u32, from: u32) -> bool
    ensures { IsTrue result → IsLiftable by from t.now }
{
    match &t.node {
        TermNode::Bound { place } => *place < from || place.checked_add(by).is_some(),
        TermNode::Abs { body, .. } => from < u32::MAX && can_lift(body, by, from + 1),
        TermNode::App { fun, arg, .. } => can_lift(fun, by, from) && can_lift(arg, by, from),
        _ => true,
    }
}

/// Whether the argument can be put for the bound variable of this place.
pub(crate) fn can_put(place: u32, arg: &Term, body: &Term) -> bool
    ensures { IsTrue result → IsPuttable place arg.now body.now }
{
    match &body.node {
        TermNode::Bound { place: bound } => *bound != place || can_lift(arg, place, 0),
        TermNode::Abs { body, .. } => place < u32::MAX && can_put(place + 1, arg, body),
        TermNode::App {
            fun,
            arg: inner,
            ..
        } => can_put(place, arg, fun) && can_put(place, arg, inner),
        _ => true,
    }
}

/// Whether the term is a free or schematic variable.
pub(crate) fn is_variable(t: &Term) -> bool
    ensures { IsTrue result → IsVariable t.now }
{
    match &t.node {
        TermNode::Free { .. } => true,
        TermNode::Var { .. } => true,
        _ => false,
    }
}

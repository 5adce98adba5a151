//! Tests of what the calls ask of the terms that they are given.
ghost use Rattle.std.specs.Prelude.{IsTrue};
ghost use Rattle.pure_definitions.specs.Terms.Bounds.{IsClosedUnder};
ghost use Rattle.pure_definitions.specs.Terms.Conditions.{IsVariable};

use pure_term::{Term, TermNode, loose_above_of};

/// Whether no bound variable is loose under so many binders.
pub fn is_closed_under(t: &Term, binders: u32) -> bool
    ensures { IsTrue result → IsClosedUnder binders t.now }
{
    loose_above_of(t) <= u64::from(binders)
}

/// Whether the term is a free or schematic variable.
pub fn is_variable(t: &Term) -> bool
    ensures { IsTrue result → IsVariable t.now }
{
    match &t.node {
        TermNode::Free { .. } => true,
        TermNode::Var { .. } => true,
        _ => false,
    }
}

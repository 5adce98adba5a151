//! Measures by a walk through the whole term: where a node keeps too little room for them, which it does far beyond the limits alone.
ghost use Rattle.std.specs.Prelude.{◌≡◌};
ghost use Rattle.pure_definitions.specs.Terms.Term.{term_size, term_depth};
ghost use Rattle.pure_definitions.specs.Terms.Measures.{kept_count, term_index_above, loose_above};

use crate::term::{Term, TermNode};
use pure_typ::{index_above_of_typ, whole_depth_of_typ, whole_size_of_typ};

/// The count of the term's nodes and of those of the types in it, cut off at `u64::MAX`.
pub fn counted_size(t: &Term) -> u64
    ensures { result ≡ kept_count (term_size t.now) }
{
    match &t.node {
        TermNode::Const { typ, .. } => whole_size_of_typ(typ).saturating_add(1),
        TermNode::Free { typ, .. } => whole_size_of_typ(typ).saturating_add(1),
        TermNode::Var { typ, .. } => whole_size_of_typ(typ).saturating_add(1),
        TermNode::Bound { .. } => 1,
        TermNode::Abs { typ, body, .. } => whole_size_of_typ(typ)
            .saturating_add(counted_size(body))
            .saturating_add(1),
        TermNode::App { fun, arg, .. } => counted_size(fun)
            .saturating_add(counted_size(arg))
            .saturating_add(1),
    }
}

/// The count of nodes on the longest path from the root, into the types too, cut off at `u64::MAX`.
pub fn counted_depth(t: &Term) -> u64
    ensures { result ≡ kept_count (term_depth t.now) }
{
    match &t.node {
        TermNode::Const { typ, .. } => whole_depth_of_typ(typ).saturating_add(1),
        TermNode::Free { typ, .. } => whole_depth_of_typ(typ).saturating_add(1),
        TermNode::Var { typ, .. } => whole_depth_of_typ(typ).saturating_add(1),
        TermNode::Bound { .. } => 1,
        TermNode::Abs { typ, body, .. } => whole_depth_of_typ(typ)
            .max(counted_depth(body))
            .saturating_add(1),
        TermNode::App { fun, arg, .. } => counted_depth(fun)
            .max(counted_depth(arg))
            .saturating_add(1),
    }
}

/// One above the greatest index of a schematic variable of the term, those of types among them, or 0.
pub fn greatest_index(t: &Term) -> u64
    ensures { result ≡ term_index_above t.now }
{
    match &t.node {
        TermNode::Const { typ, .. } => index_above_of_typ(typ),
        TermNode::Free { typ, .. } => index_above_of_typ(typ),
        TermNode::Var { index, typ, .. } => (u64::from(*index) + 1).max(index_above_of_typ(typ)),
        TermNode::Bound { .. } => 0,
        TermNode::Abs { typ, body, .. } => index_above_of_typ(typ).max(greatest_index(body)),
        TermNode::App { fun, arg, .. } => greatest_index(fun).max(greatest_index(arg)),
    }
}

/// One above the greatest bound variable that is loose in the term, or 0.
pub fn greatest_loose(t: &Term) -> u64
    ensures { result ≡ loose_above t.now }
{
    match &t.node {
        TermNode::Bound { place } => u64::from(*place) + 1,
        TermNode::Abs { body, .. } => greatest_loose(body).saturating_sub(1),
        TermNode::App { fun, arg, .. } => greatest_loose(fun).max(greatest_loose(arg)),
        _ => 0,
    }
}

//! The size and depth of terms, and which occur in which.
ghost use Rattle.std.specs.Prelude.{◌≡◌, ◌↔◌, IsTrue};
ghost use Rattle.pure_definitions.specs.Terms.Term.{Abs, App, term_size, term_depth, IsWithin};
ghost use Rattle.pure_definitions.specs.Terms.Measures.{kept_count, term_index_above, loose_above};
ghost use Rattle.pure_definitions.specs.Terms.Limits.{cut_off, Leaves};
ghost use Rattle.pure_definitions.specs.Terms.Typing.{node_count};
ghost use Rattle.pure_definitions.specs.Terms.Bounds.{Occurs};
ghost use Rattle.pure_term.specs.TermKept.{AreMeasures, short_count};

use crate::term::{Kept, Term, TermNode};
use crate::walked::{counted_depth, counted_size, greatest_index, greatest_loose};
use pure_typ::{
    MAX_DEPTH, MAX_SIZE, Typ, cut, index_above_of_typ, kept_leaves, size_of_typ, whole_depth_of_typ,
};

/// The number, cut off at `u16::MAX`.
fn short(n: u64) -> u16
    ensures { result ≡ short_count n }
{
    if n < 65535 { n as u16 } else { u16::MAX }
}

/// The count of the term's nodes and of those of the types in it, cut off at `u32::MAX`.
pub fn size(t: &Term) -> u32
    ensures { result ≡ cut_off (term_size t.now) }
{
    match &t.node {
        TermNode::Const { typ, .. } => size_of_typ(typ).saturating_add(1),
        TermNode::Free { typ, .. } => size_of_typ(typ).saturating_add(1),
        TermNode::Var { typ, .. } => size_of_typ(typ).saturating_add(1),
        TermNode::Bound { .. } => 1,
        TermNode::Abs { kept, .. } => kept.size,
        TermNode::App { kept, .. } => kept.size,
    }
}

/// The count of nodes on the longest path from the root, into the types too, cut off at `u16::MAX`.
fn short_depth(t: &Term) -> u16
    ensures { result ≡ short_count (term_depth t.now) }
{
    match &t.node {
        TermNode::Const { typ, .. } => short(whole_depth_of_typ(typ).saturating_add(1)),
        TermNode::Free { typ, .. } => short(whole_depth_of_typ(typ).saturating_add(1)),
        TermNode::Var { typ, .. } => short(whole_depth_of_typ(typ).saturating_add(1)),
        TermNode::Bound { .. } => 1,
        TermNode::Abs { kept, .. } => kept.depth,
        TermNode::App { kept, .. } => kept.depth,
    }
}

/// The count of the term's nodes and of those of the types in it, cut off at `u64::MAX`.
pub fn whole_size(t: &Term) -> u64
    ensures { result ≡ kept_count (term_size t.now) }
{
    let known = size(t);
    if known < u32::MAX {
        u64::from(known)
    } else {
        counted_size(t)
    }
}

/// The count of nodes on the longest path from the root, into the types too, cut off at `u64::MAX`.
pub fn whole_depth(t: &Term) -> u64
    ensures { result ≡ kept_count (term_depth t.now) }
{
    let known = short_depth(t);
    if known < u16::MAX {
        u64::from(known)
    } else {
        counted_depth(t)
    }
}

/// What a node that keeps this has for its greatest index.
fn whole_index(kept: u32, t: &Term) -> u64
    requires { kept ≡ cut_off (term_index_above t.now) }
    ensures { result ≡ term_index_above t.now }
{
    if kept < u32::MAX {
        u64::from(kept)
    } else {
        greatest_index(t)
    }
}

/// What a node that keeps this has for its greatest loose bound variable.
fn whole_place(kept: u16, t: &Term) -> u64
    requires { kept ≡ short_count (loose_above t.now) }
    ensures { result ≡ loose_above t.now }
{
    if kept < u16::MAX {
        u64::from(kept)
    } else {
        greatest_loose(t)
    }
}

/// One above the greatest index of a schematic variable of the term, those of types among them, or 0.
pub fn index_above_of(t: &Term) -> u64
    ensures { result ≡ term_index_above t.now }
{
    match &t.node {
        TermNode::Const { typ, .. } => index_above_of_typ(typ),
        TermNode::Free { typ, .. } => index_above_of_typ(typ),
        TermNode::Var { index, typ, .. } => (u64::from(*index) + 1).max(index_above_of_typ(typ)),
        TermNode::Bound { .. } => 0,
        TermNode::Abs { kept, .. } => whole_index(kept.above, t),
        TermNode::App { kept, .. } => whole_index(kept.above, t),
    }
}

/// One above the greatest bound variable that is loose in the term, or 0.
pub fn loose_above_of(t: &Term) -> u64
    ensures { result ≡ loose_above t.now }
{
    match &t.node {
        TermNode::Const { .. } => 0,
        TermNode::Free { .. } => 0,
        TermNode::Var { .. } => 0,
        TermNode::Bound { place } => u64::from(*place) + 1,
        TermNode::Abs { kept, .. } => whole_place(kept.loose, t),
        TermNode::App { kept, .. } => whole_place(kept.loose, t),
    }
}

/// The measures of an abstraction.
pub fn abs_measures(typ: &Typ, body: &Term) -> Kept
    ensures { AreMeasures (Abs typ.now body.now) result }
{
    Kept {
        size: size_of_typ(typ)
            .saturating_add(size(body))
            .saturating_add(1),
        above: cut(index_above_of_typ(typ).max(index_above_of(body))),
        depth: short(
            whole_depth_of_typ(typ)
                .max(whole_depth(body))
                .saturating_add(1),
        ),
        loose: short(loose_above_of(body).saturating_sub(1)),
    }
}

/// The measures of an application.
pub fn app_measures(fun: &Term, arg: &Term) -> Kept
    ensures { AreMeasures (App fun.now arg.now) result }
{
    Kept {
        size: size(fun).saturating_add(size(arg)).saturating_add(1),
        above: cut(index_above_of(fun).max(index_above_of(arg))),
        depth: short(whole_depth(fun).max(whole_depth(arg)).saturating_add(1)),
        loose: short(loose_above_of(fun).max(loose_above_of(arg))),
    }
}

/// The count of nodes on the longest path from the root, into the types too, cut off at `u32::MAX`.
pub fn depth(t: &Term) -> u32
    ensures { result ≡ cut_off (term_depth t.now) }
{
    cut(whole_depth(t))
}

/// Whether the term is within the limits.
pub fn is_within(t: &Term) -> bool
    ensures { IsTrue result ↔ IsWithin t.now }
{
    match term_leaves(t, MAX_SIZE, MAX_DEPTH) {
        Some(_) => true,
        None => false,
    }
}

/// The count of the term's nodes, without those of types, cut off at `u32::MAX`.
pub fn node_count_of(t: &Term) -> u32
    ensures { result ≡ cut_off (node_count t.now) }
{
    match &t.node {
        TermNode::Abs { body, .. } => node_count_of(body).saturating_add(1),
        TermNode::App { fun, arg, .. } => node_count_of(fun)
            .saturating_add(node_count_of(arg))
            .saturating_add(1),
        _ => 1,
    }
}

/// Whether two terms are equal, said as a fact.
pub fn are_same(t: &Term, u: &Term) -> bool
    ensures { IsTrue result ↔ (t.now ≡ u.now) }
{
    t == u
}

/// Whether some subtree of the term equals `v` as it stands.
pub fn occurs(v: &Term, t: &Term) -> bool
    ensures { IsTrue result ↔ Occurs v.now t.now }
{
    match &t.node {
        TermNode::Abs { body, .. } => are_same(v, t) || occurs(v, body),
        TermNode::App { fun, arg, .. } => are_same(v, t) || occurs(v, fun) || occurs(v, arg),
        _ => are_same(v, t),
    }
}

/// What is left of room for `left` nodes, on paths of at most `room`, when the term is put in.
pub fn term_leaves(t: &Term, left: u32, room: u32) -> Option<u32>
    ensures { Leaves left room (term_size t.now) (term_depth t.now) result }
{
    if size(t) > left {
        return None;
    }
    if u32::from(short_depth(t)) > room {
        return None;
    }
    kept_leaves(left, room, whole_size(t), whole_depth(t))
}

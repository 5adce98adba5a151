//! The limits, the size and depth of types, and what fits into a room for nodes.
ghost use Rattle.std.specs.Prelude.{◌≡◌, ◌↔◌, ℕ, IsTrue};
ghost use Rattle.pure_definitions.specs.Types.Typ.{typ_size, typ_depth};
ghost use Rattle.pure_definitions.specs.Terms.Measures.{kept_count, typ_index_above, is_ground};
ghost use Rattle.pure_definitions.specs.Terms.Limits.{cut_off, Leaves, IsWithinTyp};

use crate::typ::{Typ, TypNode};

/// The greatest size of a term within the limits.
pub const MAX_SIZE: u32 = 200_000;

/// The greatest depth of a term within the limits.
pub const MAX_DEPTH: u32 = 2000;

/// The count of the type's nodes, cut off at `u64::MAX`.
pub fn whole_size_of_typ(t: &Typ) -> u64
    ensures { result ≡ kept_count (typ_size t.now) }
{
    match &t.node {
        TypNode::TFree { .. } => 1,
        TypNode::TVar { .. } => 1,
        TypNode::Con { args, .. } => args.size().saturating_add(1),
    }
}

/// The count of nodes on the longest path from the type's root, cut off at `u64::MAX`.
pub fn whole_depth_of_typ(t: &Typ) -> u64
    ensures { result ≡ kept_count (typ_depth t.now) }
{
    match &t.node {
        TypNode::TFree { .. } => 1,
        TypNode::TVar { .. } => 1,
        TypNode::Con { args, .. } => args.depth().saturating_add(1),
    }
}

/// One above the greatest index of a schematic variable of the type, or 0.
pub fn index_above_of_typ(t: &Typ) -> u64
    ensures { result ≡ typ_index_above t.now }
{
    match &t.node {
        TypNode::TFree { .. } => 0,
        TypNode::TVar { index, .. } => u64::from(*index) + 1,
        TypNode::Con { args, .. } => args.above(),
    }
}

/// Whether the type is without type variables.
pub fn is_ground_typ(t: &Typ) -> bool
    ensures { result ≡ is_ground t.now }
{
    match &t.node {
        TypNode::TFree { .. } => false,
        TypNode::TVar { .. } => false,
        TypNode::Con { args, .. } => args.are_ground(),
    }
}

/// The number, cut off at `u32::MAX`.
pub fn cut(n: u64) -> u32
    ensures { result ≡ cut_off n }
{
    if n < 4294967295 { n as u32 } else { u32::MAX }
}

/// The count of the type's nodes, cut off at `u32::MAX`.
pub fn size_of_typ(t: &Typ) -> u32
    ensures { result ≡ cut_off (typ_size t.now) }
{
    cut(whole_size_of_typ(t))
}

/// The count of nodes on the longest path from the type's root, cut off at `u32::MAX`.
pub fn depth_of_typ(t: &Typ) -> u32
    ensures { result ≡ cut_off (typ_depth t.now) }
{
    cut(whole_depth_of_typ(t))
}

/// What is left of room for `left` nodes, on paths of at most `room`, when something of this size and depth is put in.
pub fn node_leaves(left: u32, room: u32, size: u32, depth: u32) -> Option<u32>
    ensures { Leaves left room size depth result }
{
    if left < size {
        return None;
    }
    if room < depth {
        return None;
    }
    Some(left - size)
}

/// What is left of room for `left` nodes, on paths of at most `room`, when something is put in whose size and depth are these, cut off at `u64::MAX`.
pub fn kept_leaves(left: u32, room: u32, size: u64, depth: u64) -> Option<u32>
    ensures { (s d : ℕ) → size ≡ kept_count s → depth ≡ kept_count d → Leaves left room s d result }
{
    if u64::from(left) < size {
        return None;
    }
    if u64::from(room) < depth {
        return None;
    }
    Some(left - size as u32)
}

/// What is left of room for `left` nodes, on paths of at most `room`, when the type is put in.
pub fn typ_leaves(t: &Typ, left: u32, room: u32) -> Option<u32>
    ensures { Leaves left room (typ_size t.now) (typ_depth t.now) result }
{
    kept_leaves(left, room, whole_size_of_typ(t), whole_depth_of_typ(t))
}

/// Whether the type is within the limits.
pub fn is_typ_within(t: &Typ) -> bool
    ensures { IsTrue result ↔ IsWithinTyp t.now }
{
    match typ_leaves(t, MAX_SIZE, MAX_DEPTH) {
        Some(_) => true,
        None => false,
    }
}

//! Schematic types and patterns.
ghost use Rattle.std.specs.Prelude.{◌≡◌, ◌↔◌, ℕ, List, IsTrue, IfOk};
ghost use Rattle.pure_pattern_laws.specs.Patterns.{HasPlaces, IsPattern};
ghost use Rattle.pure_pattern_terms.specs.Typs.{HasTypVariable, has_typ_variable};

use crate::places::places_of;
use pure_term::{Term, TermNode, index_above_of};
use pure_typ::index_above_of_typ;
use pure_unify_sides::{front, is_schematic};
use std::alloc::{AllocError, Global};

/// The same, as computed.
fn has_schematic(t: &Term) -> bool
    ensures { result ≡ has_typ_variable t.now }
{
    if index_above_of(t) == 0 {
        return false;
    }
    match &t.node {
        TermNode::Const { typ, .. } => 0 < index_above_of_typ(typ),
        TermNode::Free { typ, .. } => 0 < index_above_of_typ(typ),
        TermNode::Var { typ, .. } => 0 < index_above_of_typ(typ),
        TermNode::Bound { .. } => false,
        TermNode::Abs { typ, body, .. } => 0 < index_above_of_typ(typ) || has_schematic(body),
        TermNode::App { fun, arg, .. } => has_schematic(fun) || has_schematic(arg),
    }
}

/// Whether a schematic type variable occurs in the term.
pub fn has_schematic_typ(t: &Term) -> bool
    ensures { IsTrue result ↔ HasTypVariable t.now }
{
    has_schematic(t)
}

/// Whether the term's arguments are distinct bound variables up to eta steps.
fn has_places(alloc: Global, t: &Term) -> Result<bool, AllocError>
    ensures { IfOk result (λ yes. IsTrue yes ↔ ((zs : List ℕ) × HasPlaces t.now zs)) }
{
    let places = places_of(alloc, t)?;
    Ok(places.is_some())
}

/// Whether each schematic variable in the term stands applied to distinct bound variables, up to eta steps.
pub fn is_pattern(alloc: Global, t: &Term) -> Result<bool, AllocError>
    ensures { IfOk result (λ yes. IsTrue yes ↔ IsPattern t.now) }
{
    if index_above_of(t) == 0 {
        return Ok(true);
    }
    match &t.node {
        TermNode::Abs { body, .. } => is_pattern(alloc, body),
        TermNode::App { fun, arg, .. } => {
            if is_schematic(front(fun)) {
                return has_places(alloc, t);
            }
            if !is_pattern(alloc, fun)? {
                return Ok(false);
            }
            is_pattern(alloc, arg)
        }
        _ => Ok(true),
    }
}

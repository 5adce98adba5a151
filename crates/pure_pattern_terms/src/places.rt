//! Which bound variables the arguments of a term are.
ghost use Rattle.std.specs.Prelude.{◌≡◌, ◌++◌, ℕ, List, [], ◌∷◌, IfOk, MatchOption};
ghost use Rattle.pure_text.specs.Lists.{IsIn};
ghost use Rattle.pure_pattern_laws.specs.Patterns.{HasPlaces};
ghost use Rattle.pure_pattern_terms.specs.Found.{IsPlaceFound, IsBoundFound};

use pure_eta::eta_norm;
use pure_term::{Term, TermNode};
use std::alloc::{AllocError, Global};

/// The bound variable that the term is, if it is one.
fn bound_of(t: &Term) -> Option<u32>
    ensures { IsBoundFound t.now result }
{
    match &t.node {
        TermNode::Bound { place } => Some(*place),
        _ => None,
    }
}

/// The bound variable that the term is up to eta steps, if it is one.
pub fn place_of(alloc: Global, t: &Term) -> Result<Option<u32>, AllocError>
    ensures { IfOk result (IsPlaceFound t.now) }
{
    if let Some(place) = bound_of(t) {
        return Ok(Some(place));
    }
    let normal = eta_norm(alloc, t)?;
    Ok(bound_of(&normal))
}

/// The list with one more, if that doesn't stand in it.
fn with_place(mut places: Vec<u32>, place: u32) -> Result<Option<Vec<u32>>, AllocError>
    ensures { IfOk result (λ more. MatchOption more (IsIn place places.items) (λ zs. (zs.items ≡ places.items ++ place ∷ []) × (¬ IsIn place places.items))) }
{
    if places.contains(&place) {
        return Ok(None);
    }
    places.push(place)?;
    Ok(Some(places))
}

/// The bound variables that the term's arguments are up to eta steps, left to right, if each is one and no two are the same.
pub fn places_of(alloc: Global, t: &Term) -> Result<Option<Vec<u32>>, AllocError>
    ensures { IfOk result (λ places. MatchOption places (¬ ((zs : List ℕ) × HasPlaces t.now zs)) (λ zs. HasPlaces t.now zs.items)) }
{
    match &t.node {
        TermNode::App { fun, arg, .. } => {
            let Some(places) = places_of(alloc, fun)? else {
                return Ok(None);
            };
            let Some(place) = place_of(alloc, arg)? else {
                return Ok(None);
            };
            with_place(places, place)
        }
        _ => Ok(Some(Vec::new(alloc))),
    }
}

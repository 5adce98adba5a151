//! What stands for a bound variable in a scope, and arguments held there.
ghost use Rattle.std.specs.Prelude.{◌≡◌, ◌≤◌, IfOk, MatchOption};
ghost use Rattle.pure_definitions.specs.Terms.Term as tree;
ghost use Rattle.pure_definitions.specs.Terms.Term.{term_size, term_depth, max_size, max_depth};
ghost use Rattle.pure_definitions.specs.Terms.Bounds.{lift_term};
ghost use Rattle.pure_norm.specs.Env.{meant};
ghost use Rattle.pure_norm.specs.Measures.{measure_of};
ghost use Rattle.pure_norm.specs.Held.{IsBound, IsFound, IsHeld};
ghost use Rattle.pure_norm.specs.Pieces.{IsPiece};

use crate::measure::Measure;
use crate::pieces::Piece;
use crate::rows::measure_in;
use crate::scope::{Closure, Scope, ScopeNode, push_measures, raised_scope};
use pure_term::{Term, TermNode};
use std::alloc::{AllocError, Global};
use std::rc::Rc;

/// A term in a scope, with the measure of what is meant.
#[derive(Drop)]
pub struct Held<'t> {
    pub closure: Closure<'t>,
    pub measure: Measure,
}

/// What stands for a bound variable: a bound variable, or a term that is held.
#[derive(Drop)]
pub enum Found<'t> {
    Place(u32),
    Kept(Held<'t>),
}

/// What stands for a bound variable in the scope, raised by `up`. Beyond 2 ^ 32 binders, which no memory holds, it is want of memory.
pub fn find<'t>(
    alloc: Global,
    scope: &Scope<'t>,
    place: u32,
    up: u32,
) -> Result<Found<'t>, AllocError>
    ensures { IfOk result (λ found. IsFound (lift_term up 0 (meant scope.now (tree.Bound place))) found) }
{
    match &scope.node {
        ScopeNode::Empty => stays(place, up),
        ScopeNode::Raise { by, rest } => {
            let Some(up) = up.checked_add(*by) else {
                return Err(AllocError);
            };
            find(alloc, rest, place, up)
        }
        ScopeNode::Under { rest } => {
            if place == 0 {
                return Ok(Found::Place(up));
            }
            let Some(up) = up.checked_add(1) else {
                return Err(AllocError);
            };
            find(alloc, rest, place - 1, up)
        }
        ScopeNode::Bind {
            piece,
            inner,
            measure,
            rest,
        } => {
            if place != 0 {
                return find(alloc, rest, place - 1, up);
            }
            if let Some(place) = place_of(piece.term) {
                return find(alloc, inner, place, up);
            }
            keep(alloc, piece, inner, *measure, up)
        }
    }
}

/// The place of a term that is a bound variable.
fn place_of(t: &Term) -> Option<u32>
    ensures { MatchOption result (¬ IsBound t.now) (λ place. t.now ≡ tree.Bound place) }
{
    match &t.node {
        TermNode::Bound { place } => Some(*place),
        _ => None,
    }
}

/// The bound variable of this place, raised.
fn stays<'t>(place: u32, up: u32) -> Result<Found<'t>, AllocError>
    ensures { IfOk result (λ found. IsFound (lift_term up 0 (tree.Bound place)) found) }
{
    match place.checked_add(up) {
        Some(place) => Ok(Found::Place(place)),
        None => Err(AllocError),
    }
}

/// The term that a binder stands for, raised.
fn keep<'t>(
    alloc: Global,
    piece: &Piece<'t>,
    inner: &Rc<Scope<'t>>,
    measure: Measure,
    up: u32,
) -> Result<Found<'t>, AllocError>
    requires other { ¬ IsBound piece.now.term.now }
    requires measured { measure ≡ measure_of (meant inner.now.value piece.now.term.now) }
    requires piece { IsPiece piece.now }
    ensures { IfOk result (λ found. IsFound (lift_term up 0 (meant inner.now.value piece.now.term.now)) found) }
{
    let scope = raised_scope(alloc, up, inner)?;
    let closure = Closure {
        piece: *piece,
        scope,
    };
    Ok(Found::Kept(Held { closure, measure }))
}

/// The argument held in its scope. A bound variable is not held itself, but what stands for it.
pub fn hold<'t>(
    alloc: Global,
    arg: &Piece<'t>,
    scope: &Rc<Scope<'t>>,
) -> Result<Held<'t>, AllocError>
    requires piece { IsPiece arg.now }
    requires few { term_size (meant scope.now.value arg.now.term.now) ≤ max_size }
    requires shallow { term_depth (meant scope.now.value arg.now.term.now) ≤ max_depth }
    ensures { IfOk result (λ held. IsHeld (meant scope.now.value arg.now.term.now) held) }
{
    if let Some(place) = place_of(arg.term) {
        if let Found::Kept(held) = find(alloc, scope, place, 0)? {
            return Ok(held);
        }
    }
    hold_itself(alloc, arg, scope)
}

/// The argument itself held in its scope, measured by one look through its row.
fn hold_itself<'t>(
    alloc: Global,
    arg: &Piece<'t>,
    scope: &Rc<Scope<'t>>,
) -> Result<Held<'t>, AllocError>
    requires piece { IsPiece arg.now }
    requires few { term_size (meant scope.now.value arg.now.term.now) ≤ max_size }
    requires shallow { term_depth (meant scope.now.value arg.now.term.now) ≤ max_depth }
    ensures { IfOk result (λ held. IsHeld (meant scope.now.value arg.now.term.now) held) }
{
    let mut places = Vec::new(alloc);
    push_measures(scope, &mut places)?;
    let measure = measure_in(arg.cells, arg.binders, arg.above, &places);
    let scope = scope.clone()?;
    let closure = Closure { piece: *arg, scope };
    Ok(Held { closure, measure })
}

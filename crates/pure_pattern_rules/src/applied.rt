//! Functions applied to some of the bound variables of an image.
ghost use Rattle.std.specs.Prelude.{◌≡◌, if◌then◌else◌, IfOk, MatchOption, None, Some};
ghost use Rattle.pure_definitions.specs.Terms.Term as tree;
ghost use Rattle.pure_unify_definitions.specs.Fronts as fronts;
ghost use Rattle.pure_pattern_laws.specs.Places as lists;

use pure_pattern_terms::stands_in;
use pure_term::{Term, TermNode};
use std::alloc::{AllocError, Global};
use std::sync::Arc;

/// The function applied to a bound variable.
fn applied_to(alloc: Global, function: Arc<Term>, place: u32) -> Result<Arc<Term>, AllocError>
    ensures { IfOk result (λ t. t.value ≡ tree.App function.value (tree.Bound place)) }
{
    let node = TermNode::Bound { place };
    let arg = Arc::new(alloc, Term { node })?;
    Ok(Arc::new(alloc, Term::app(function, arg))?)
}

/// The function applied to a bound variable, if that is kept.
fn applied_if(
    alloc: Global,
    is_kept: bool,
    function: Arc<Term>,
    place: u32,
) -> Result<Arc<Term>, AllocError>
    ensures { IfOk result (λ t. t.value ≡ (if is_kept then tree.App function.value (tree.Bound place) else function.value)) }
{
    if is_kept {
        return applied_to(alloc, function, place);
    }
    Ok(function)
}

/// The function applied to those of the last bound variables at whose places both lists agree.
pub fn applied_to_agreeing(
    alloc: Global,
    function: Arc<Term>,
    count: u32,
    zs: &[u32],
    ws: &[u32],
) -> Result<Arc<Term>, AllocError>
    ensures { IfOk result (λ t. t.value ≡ fronts.applied function.value (lists.agreeing zs.now ws.now (fronts.bounds count))) }
{
    if count == 0 {
        return Ok(function);
    }
    let Some((z, zs)) = zs.split_first() else {
        return Ok(function);
    };
    let Some((w, ws)) = ws.split_first() else {
        return Ok(function);
    };
    let place = count - 1;
    let more = applied_if(alloc, *z == *w, function, place)?;
    let done = applied_to_agreeing(alloc, more, place, zs, ws)?;
    Ok(done)
}

/// The function applied to those of the last bound variables at whose places the first list has what stands in the second, too.
pub fn applied_to_left(
    alloc: Global,
    function: Arc<Term>,
    count: u32,
    zs: &[u32],
    ws: &[u32],
) -> Result<Arc<Term>, AllocError>
    ensures { IfOk result (λ t. t.value ≡ fronts.applied function.value (lists.shared_left zs.now ws.now (fronts.bounds count))) }
{
    if count == 0 {
        return Ok(function);
    }
    let Some((z, zs)) = zs.split_first() else {
        return Ok(function);
    };
    let place = count - 1;
    let more = applied_if(alloc, stands_in(*z, ws), function, place)?;
    let done = applied_to_left(alloc, more, place, zs, ws)?;
    Ok(done)
}

/// Which of the last bound variables stands at the place where the given one stands in the list.
pub fn bound_at(z: u32, ws: &[u32], count: u32) -> Option<u32>
    ensures { MatchOption result (lists.at_place z ws.now (fronts.bounds count) ≡ None) (λ p. lists.at_place z ws.now (fronts.bounds count) ≡ Some (tree.Bound p)) }
{
    if count == 0 {
        return None;
    }
    let Some((w, ws)) = ws.split_first() else {
        return None;
    };
    let place = count - 1;
    if z == *w {
        return Some(place);
    }
    bound_at(z, ws, place)
}

/// The function applied to those of the last bound variables at whose places the second list has what stands in the first, too, in the order of the first.
pub fn applied_to_right(
    alloc: Global,
    function: Arc<Term>,
    count: u32,
    zs: &[u32],
    ws: &[u32],
) -> Result<Arc<Term>, AllocError>
    ensures { IfOk result (λ t. t.value ≡ fronts.applied function.value (lists.shared_right zs.now ws.now (fronts.bounds count))) }
{
    let Some((z, zs)) = zs.split_first() else {
        return Ok(function);
    };
    match bound_at(*z, ws, count) {
        Some(place) => {
            let more = applied_to(alloc, function, place)?;
            let done = applied_to_right(alloc, more, count, zs, ws)?;
            Ok(done)
        }
        None => applied_to_right(alloc, function, count, zs, ws),
    }
}

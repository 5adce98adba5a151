//! Hypotheses as they stand behind a whole prefix.
ghost use Rattle.std.specs.Prelude.{◌≡◌, length, nat_lt, if◌then◌else◌, ◌+◌, IfOk};
ghost use Rattle.pure_definitions.specs.Terms.Term as tree;
ghost use Rattle.pure_definitions.specs.Terms.Bounds.{lift_term};
ghost use Rattle.pure_goal_laws.specs.Prefix as prefix;
ghost use Rattle.pure_goal_steps.specs.Reading as reading;
ghost use Rattle.pure_goal_rules.specs.Shown.{shown, seen_place};

use crate::build::{count_parameters, one_more};
use crate::item::{Item, Spot};
use pure_term::{Term, TermNode, copied, loose_above_of};
use std::alloc::{AllocError, Global};
use std::sync::Arc;

/// The place of a bound variable, raised where it is at or above `from`. A place beyond 32 bits is want of memory.
fn lifted_place(by: u32, from: u32, place: u32) -> Result<u32, AllocError>
    ensures { IfOk result (λ p. tree.Bound p ≡ lift_term by from (tree.Bound place)) }
{
    if place < from {
        return Ok(place);
    }
    match place.checked_add(by) {
        Some(raised) => Ok(raised),
        None => Err(AllocError),
    }
}

/// The part with `by` added to each loose bound variable at or above `from`. One in which none is loose there is handed back as it is.
fn lifted_part(alloc: Global, by: u32, from: u32, t: &Arc<Term>) -> Result<Arc<Term>, AllocError>
    ensures { IfOk result (λ u. u.value ≡ lift_term by from t.now.value) }
{
    let whole: &Term = t;
    if loose_above_of(whole) <= u64::from(from) {
        return Arc::try_clone(t);
    }
    match &whole.node {
        TermNode::Bound { place } => {
            let place = lifted_place(by, from, *place)?;
            let node = TermNode::Bound { place };
            Ok(Arc::new(alloc, Term { node })?)
        }
        TermNode::Abs { typ, body, .. } => {
            let under = one_more(from)?;
            let typ = typ.copy(alloc)?;
            let body = lifted_part(alloc, by, under, body)?;
            Ok(Arc::new(alloc, Term::abs(typ, body))?)
        }
        TermNode::App { fun, arg, .. } => {
            let fun = lifted_part(alloc, by, from, fun)?;
            let arg = lifted_part(alloc, by, from, arg)?;
            Ok(Arc::new(alloc, Term::app(fun, arg))?)
        }
        _ => Arc::try_clone(t),
    }
}

/// The hypothesis, lifted over the parameters that come after it. One in which nothing is loose stays as it is.
pub fn standing(alloc: Global, spot: &Spot) -> Result<Term, AllocError>
    ensures { IfOk result (λ t. t ≡ reading.standing (seen_place spot.now)) }
{
    if loose_above_of(spot.hypothesis) == 0 {
        return spot.hypothesis.copy(alloc);
    }
    let by = count_parameters(spot.after)?;
    let whole = copied(alloc, spot.hypothesis)?;
    let lifted = lifted_part(alloc, by, 0, &whole)?;
    lifted.copy(alloc)
}

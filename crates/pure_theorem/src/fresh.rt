//! Where a variable occurs first.
ghost use Rattle.std.specs.Prelude.{◌≡◌, ◌↔◌, IsTrue, MatchOption};
ghost use Rattle.pure_definitions.specs.Terms.Bounds.{Occurs};
ghost use Rattle.pure_definitions.specs.Terms.Limits.{cut_off};
ghost use Rattle.pure_logic.specs.Concludes.{IsFresh};
ghost use Rattle.pure_logic.specs.Laws.Inferences.{IsFreshInPairs};
ghost use Rattle.pure_theorem.specs.First.{IsFirstWith, OccursInPair};

use crate::theorem::Pair;
use pure_term::{Term, occurs};

/// The place, cut off at `u32::MAX`.
fn cut_place(place: usize) -> u32
    ensures { result ≡ cut_off place }
{
    if place < u32::MAX as usize {
        place as u32
    } else {
        u32::MAX
    }
}

/// The place of the first of the terms in which the variable occurs.
pub fn first_with(variable: &Term, terms: &[Term]) -> Option<u32>
    ensures { MatchOption result (IsFresh variable.now terms.now) (IsFirstWith (Occurs variable.now) terms.now) }
{
    for (place, term) in terms.iter().enumerate() {
        if occurs(variable, term) {
            return Some(cut_place(place));
        }
    }
    None
}

/// Whether the variable occurs in one of the sides.
fn occurs_in_pair(variable: &Term, pair: &Pair) -> bool
    ensures { IsTrue result ↔ OccursInPair variable.now pair.now }
{
    occurs(variable, &pair.left) || occurs(variable, &pair.right)
}

/// The place of the first of the pairs in which the variable occurs.
pub fn first_pair_with(variable: &Term, pairs: &[Pair]) -> Option<u32>
    ensures { MatchOption result (IsFreshInPairs variable.now pairs.now) (IsFirstWith (OccursInPair variable.now) pairs.now) }
{
    for (place, pair) in pairs.iter().enumerate() {
        if occurs_in_pair(variable, pair) {
            return Some(cut_place(place));
        }
    }
    None
}

//! The first pair that unification of patterns refuses.
ghost use Rattle.std.specs.Prelude.{◌≡◌, ◌↔◌, IsTrue, IfOk, MatchOption};
ghost use Rattle.pure_text.specs.Lists.{Each};
ghost use Rattle.pure_definitions.specs.Terms.Limits.{cut_off};
ghost use Rattle.pure_theorem.specs.First.{IsFirstWith};
ghost use Rattle.pure_pattern_laws.specs.Patterns.{HasSchematicTyp, IsPatternPair};

use crate::tests::{has_schematic_typ, is_pattern};
use pure_theorem::Pair;
use std::alloc::{AllocError, Global};

/// The place, cut off at `u32::MAX`.
fn cut_place(place: usize) -> u32
    ensures { result ≡ cut_off place }
{
    if place < u32::MAX as usize {
        place as u32
    } else {
        u32::MAX
    }
}

/// Whether a schematic type variable occurs in a side.
fn has_schematic_side(pair: &Pair) -> bool
    ensures { IsTrue result ↔ HasSchematicTyp pair.now }
{
    has_schematic_typ(&pair.left) || has_schematic_typ(&pair.right)
}

/// The place of the first pair in which a schematic type variable occurs.
pub fn first_with_schematic_typ(pairs: &[Pair]) -> Option<u32>
    ensures { MatchOption result (Each (λ p. ¬ HasSchematicTyp p) pairs.now) (IsFirstWith HasSchematicTyp pairs.now) }
{
    for (place, pair) in pairs.iter().enumerate() {
        if has_schematic_side(pair) {
            return Some(cut_place(place));
        }
    }
    None
}

/// Whether both sides are patterns.
fn is_pattern_pair(alloc: Global, pair: &Pair) -> Result<bool, AllocError>
    ensures { IfOk result (λ yes. IsTrue yes ↔ IsPatternPair pair.now) }
{
    if !is_pattern(alloc, &pair.left)? {
        return Ok(false);
    }
    is_pattern(alloc, &pair.right)
}

/// The place of the first pair that isn't one of patterns.
pub fn first_no_pattern(alloc: Global, pairs: &[Pair]) -> Result<Option<u32>, AllocError>
    ensures { IfOk result (λ found. MatchOption found (Each IsPatternPair pairs.now) (IsFirstWith (λ p. ¬ IsPatternPair p) pairs.now)) }
{
    for (place, pair) in pairs.iter().enumerate() {
        if !is_pattern_pair(alloc, pair)? {
            return Ok(Some(cut_place(place)));
        }
    }
    Ok(None)
}

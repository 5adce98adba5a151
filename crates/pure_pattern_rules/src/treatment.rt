//! The treatment of a pair of patterns by the first rule that applies.
ghost use Rattle.std.specs.Prelude.{◌≡◌, ◌↔◌, IsTrue, IfOk};
ghost use Rattle.pure_pattern_laws.specs.Patterns.{IsPatternPair};
ghost use Rattle.pure_pattern_laws.specs.Answers.{AreLongOfOneTyp};
ghost use Rattle.pure_pattern_rules.specs.Treated.{IsTreatedAs, AreSidesWithin, AreImagesWithin};

use crate::both::both_flexible;
use crate::mixed::mixed;
use crate::rigid::both_rigid;
use pure_term::{Term, TermBind, size};
use pure_theorem::{Pair, are_same};
use pure_typ::Grow;
use pure_unify_sides::is_flexible;
use std::alloc::Global;

/// What is done with a pair.
#[derive(Drop)]
pub enum Treatment {
    /// These pairs take its place.
    Becomes(Vec<Pair>),
    /// These variables are set.
    Sets(Vec<TermBind>),
    /// There is no unifier.
    Never,
}

/// Whether the sides are equal. Most that differ are told by their sizes.
fn are_equal(l: &Term, r: &Term) -> bool
    ensures { IsTrue result ↔ (l.now ≡ r.now) }
{
    size(l) == size(r) && are_same(l, r)
}

/// What the first rule that applies makes of the pair (T. Nipkow, Functional unification of higher-order patterns, 1993). New
/// variables have the given index.
///
/// # Errors
///
/// `Big` exactly where an image isn't within the limits, and `Memory`.
pub fn treated(alloc: Global, index: u32, pair: &Pair) -> Result<Treatment, Grow>
    requires long { AreLongOfOneTyp pair.now }
    requires patterns { IsPatternPair pair.now }
    requires within { AreSidesWithin pair.now }
    ensures treated { IsTreatedAs index pair.now result }
    ensures within { IfOk result AreImagesWithin }
{
    if are_equal(&pair.left, &pair.right) {
        return Ok(Treatment::Becomes(Vec::new(alloc)));
    }
    if is_flexible(&pair.left) {
        if is_flexible(&pair.right) {
            return both_flexible(alloc, index, pair);
        }
        return mixed(alloc, index, &pair.left, &pair.right);
    }
    if is_flexible(&pair.right) {
        return mixed(alloc, index, &pair.right, &pair.left);
    }
    both_rigid(alloc, pair)
}

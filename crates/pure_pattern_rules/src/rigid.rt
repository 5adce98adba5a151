//! Pairs of two rigid sides.
ghost use Rattle.std.specs.Prelude.{◌≡◌, ◌≢◌, ℕ, false, IfOk};
ghost use Rattle.pure_unify_definitions.specs.Fronts as fronts;
ghost use Rattle.pure_pattern_laws.specs.Answers.{AreLongOfOneTyp};
ghost use Rattle.pure_pattern_rules.specs.Treated.{IsTreatedAs, AreImagesWithin};

use crate::treatment::Treatment;
use pure_theorem::{Pair, are_same};
use pure_typ::Grow;
use pure_unify_sides::{head, push_argument_pairs};
use std::alloc::{AllocError, Global};

/// The pairs of the arguments of two sides with one head.
fn argument_pairs(alloc: Global, pair: &Pair) -> Result<Vec<Pair>, AllocError>
    requires long { AreLongOfOneTyp pair.now }
    requires heads { fronts.head pair.now.left ≡ fronts.head pair.now.right }
    ensures { IfOk result (λ pairs. pairs.items ≡ fronts.argument_pairs pair.now.left pair.now.right) }
{
    let mut pairs = Vec::new(alloc);
    push_argument_pairs(alloc, &mut pairs, &pair.left, &pair.right)?;
    Ok(pairs)
}

/// The treatment of a pair of two rigid sides that differ.
pub fn both_rigid(alloc: Global, pair: &Pair) -> Result<Treatment, Grow>
    requires long { AreLongOfOneTyp pair.now }
    requires left { fronts.is_flexible pair.now.left ≡ false }
    requires right { fronts.is_flexible pair.now.right ≡ false }
    requires differ { pair.now.left ≢ pair.now.right }
    ensures treated { (index : ℕ) → IsTreatedAs index pair.now result }
    ensures within { IfOk result AreImagesWithin }
{
    if !are_same(head(&pair.left), head(&pair.right)) {
        return Ok(Treatment::Never);
    }
    let pairs = argument_pairs(alloc, pair)?;
    Ok(Treatment::Becomes(pairs))
}

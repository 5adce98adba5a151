//! The index above those of the schematic variables of pairs.
ghost use Rattle.std.specs.Prelude.{◌≡◌};
ghost use Rattle.pure_definitions.specs.Terms.Limits.{cut_off};
ghost use Rattle.pure_definitions.specs.Terms.Measures.{typ_index_above};
ghost use Rattle.pure_tunify.specs.Answers.{index_above_pairs};

use crate::pair::TypPair;
use pure_typ::{Typ, cut, index_above_of_typ};

/// One above the greatest index of a schematic variable of the type, or 0; cut off at `u32::MAX`.
fn index_above_typ(t: &Typ) -> u32
    ensures { result ≡ cut_off (typ_index_above t.now) }
{
    cut(index_above_of_typ(t))
}

/// The same of pairs.
pub fn index_above_each(pairs: &[TypPair]) -> u32
    ensures { result ≡ cut_off (index_above_pairs pairs.now) }
{
    let mut most: u32 = 0;
    for pair in pairs {
        let (left, right) = (index_above_typ(&pair.left), index_above_typ(&pair.right));
        most = most.max(left.max(right));
    }
    most
}

//! Theorems whose pairs are smashed at once.
ghost use Rattle.std.specs.Prelude.{IsTrue};
ghost use Rattle.pure_text.specs.Lists.{Each};
ghost use Rattle.pure_unify_definitions.specs.Children.{IsFlexFlex};
ghost use Rattle.pure_pairs.specs.Smash.{IsPlain};

use pure_term::index_above_of;
use pure_theorem::{Pair, Thm};
use pure_unify_sides::is_flexible;

/// Whether both sides of the pair are flexible.
fn is_flex_flex(pair: &Pair) -> bool
    ensures { IsTrue result → IsFlexFlex pair.now }
{
    is_flexible(&pair.left) && is_flexible(&pair.right)
}

/// Whether both sides of each pair are flexible.
fn are_flex_flex(pairs: &[Pair]) -> bool
    ensures { IsTrue result → Each IsFlexFlex pairs.now }
{
    for pair in pairs {
        if !is_flex_flex(pair) {
            return false;
        }
    }
    true
}

/// Whether smashing the theorem's pairs leaves what it says as it is.
pub fn is_plain(th: &Thm) -> bool
    ensures { IsTrue result → IsPlain th.now }
{
    if th.hyps.len() != 0 {
        return false;
    }
    if index_above_of(&th.prop) != 0 {
        return false;
    }
    are_flex_flex(&th.pairs)
}

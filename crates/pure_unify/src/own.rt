//! Pairs whose sides are their own long forms, told without a copy.
ghost use Rattle.std.specs.Bool.{OnTrue};
ghost use Rattle.pure_text.specs.Lists.{Each};
ghost use Rattle.pure_unify_nodes.specs.Long.{IsLongPair};
ghost use Rattle.pure_unify_nodes.specs.SideAnswer.{AreSidesTyped};

use pure_theorem::Pair;
use pure_unify_nodes::is_own;

/// Whether both sides are their own long forms, within the limits.
fn is_own_pair(pair: &Pair) -> bool
    requires { AreSidesTyped pair.now }
    ensures { OnTrue result (IsLongPair pair.now) }
{
    if !is_own(&pair.left) {
        return false;
    }
    is_own(&pair.right)
}

/// Whether all sides are their own long forms, within the limits.
pub fn are_own(pairs: &[Pair]) -> bool
    requires { Each AreSidesTyped pairs.now }
    ensures { OnTrue result (Each IsLongPair pairs.now) }
{
    for pair in pairs {
        if !is_own_pair(pair) {
            return false;
        }
    }
    true
}

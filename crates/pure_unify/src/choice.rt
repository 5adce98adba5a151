//! The choice of a node: the first pair with one flexible side.
ghost use Rattle.std.specs.Prelude.{MatchOption};
ghost use Rattle.pure_text.specs.Lists.{Each};
ghost use Rattle.pure_unify_definitions.specs.Children.{IsFlexFlex, IsChoice};
ghost use Rattle.pure_unify.specs.Images.{HasFlexibleSide};

use pure_term::Term;
use pure_theorem::Pair;
use pure_unify_sides::{head, is_flexible};

/// The heads of the first pair with one flexible side, the flexible one first.
pub fn choice_of(pairs: &[Pair]) -> Option<(&Term, &Term)>
    requires { Each HasFlexibleSide pairs.now }
    ensures { MatchOption result (Each IsFlexFlex pairs.now) (λ heads. IsChoice pairs.now heads.0.now heads.1.now) }
{
    for pair in pairs {
        if !is_flexible(&pair.left) {
            return Some((head(&pair.right), head(&pair.left)));
        }
        if !is_flexible(&pair.right) {
            return Some((head(&pair.left), head(&pair.right)));
        }
    }
    None
}

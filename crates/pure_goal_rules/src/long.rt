//! Whether a term is in long form.
ghost use Rattle.std.specs.Prelude.{IsTrue};
ghost use Rattle.pure_theorem.specs.Shapes.{IsTyped};
ghost use Rattle.pure_unify_definitions.specs.LongSides.{Long, ComesTo};

use pure_eta::is_own_long_form;
use pure_term::{Term, is_within};

/// Whether the term is within the limits, beta-normal and its own long form.
pub fn is_long(t: &Term) -> bool
    requires { IsTyped t.now }
    ensures { IsTrue result → ComesTo t.now (Long t.now) }
{
    if !is_within(t) {
        return false;
    }
    is_own_long_form(t)
}

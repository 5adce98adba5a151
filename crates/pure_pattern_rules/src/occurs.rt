//! Whether a variable occurs in a side.
ghost use Rattle.std.specs.Prelude.{◌↔◌, IsTrue};
ghost use Rattle.pure_definitions.specs.Terms.Bounds.{Occurs};

use pure_term::{Term, TermNode, index_above_of};
use pure_theorem::are_same;

/// Whether some subtree of the term equals `v`. Parts whose schematic variables have lower indexes aren't looked at.
pub fn occurs_in(v: &Term, t: &Term) -> bool
    ensures { IsTrue result ↔ Occurs v.now t.now }
{
    if index_above_of(t) < index_above_of(v) {
        return false;
    }
    match &t.node {
        TermNode::Abs { body, .. } => are_same(v, t) || occurs_in(v, body),
        TermNode::App { fun, arg, .. } => {
            are_same(v, t) || occurs_in(v, fun) || occurs_in(v, arg)
        }
        _ => are_same(v, t),
    }
}

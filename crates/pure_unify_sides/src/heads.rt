//! The heads of two rigid sides.
ghost use Rattle.std.specs.Prelude.{◌≡◌};
ghost use Rattle.pure_unify_sides.specs.Heads.{AreHeads, is_same_name};

use pure_term::{Term, TermNode};

/// How two heads stand to each other.
#[derive(Clone, Copy, Debug, PartialEq, Eq)]
pub enum Heads {
    /// They are equal.
    Same,
    /// They are constants of one name, with different types.
    Constants,
    /// They are neither.
    Apart,
}

/// Whether the terms are constants of one name.
fn are_of_one_name(h: &Term, k: &Term) -> bool
    ensures { result ≡ is_same_name h.now k.now }
{
    match (&h.node, &k.node) {
        (TermNode::Const { name, .. }, TermNode::Const { name: other, .. }) => *name == *other,
        _ => false,
    }
}

/// How the heads stand to each other.
pub fn compared_heads(h: &Term, k: &Term) -> Heads
    ensures { AreHeads h.now k.now result }
{
    if *h == *k {
        return Heads::Same;
    }
    if are_of_one_name(h, k) {
        return Heads::Constants;
    }
    Heads::Apart
}

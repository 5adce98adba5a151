//! Whether a theorem is within the limits.
ghost use Rattle.std.specs.Prelude.{◌↔◌, IsTrue};
ghost use Rattle.pure_text.specs.Lists.{Each};
ghost use Rattle.pure_definitions.specs.Terms.Term.{IsWithin};
ghost use Rattle.pure_theorem.specs.Within.{IsPairWithin, AreWithin};

use crate::theorem::{Pair, Thm};
use pure_term::{Term, is_within};

/// Whether each of the terms is within the limits.
fn are_within(terms: &[Term]) -> bool
    ensures { IsTrue result ↔ Each IsWithin terms.now }
{
    for term in terms {
        if !is_within(term) {
            return false;
        }
    }
    true
}

/// Whether both sides are within the limits.
fn is_pair_within(pair: &Pair) -> bool
    ensures { IsTrue result ↔ IsPairWithin pair.now }
{
    is_within(&pair.left) && is_within(&pair.right)
}

/// Whether both sides of each of the pairs are within the limits.
fn are_pairs_within(pairs: &[Pair]) -> bool
    ensures { IsTrue result ↔ Each IsPairWithin pairs.now }
{
    for pair in pairs {
        if !is_pair_within(pair) {
            return false;
        }
    }
    true
}

impl Thm {
    /// Whether each of its terms is within the limits.
    pub fn is_within(&self) -> bool
        ensures { IsTrue result ↔ AreWithin self.now }
    {
        are_within(&self.hyps) && are_pairs_within(&self.pairs) && is_within(&self.prop)
    }
}

//! Tests of what `incr_indexes` asks of the theorem that it is given.
ghost use Rattle.std.specs.Prelude.{IsTrue};
ghost use Rattle.pure_text.specs.Lists.{Each};
ghost use Rattle.pure_inst.specs.Renaming.{IsRaisable, IsPairRaisable, AreRaisable};

use pure_term::{Term, index_above_of};
use pure_theorem::{Pair, Thm};

/// Whether each index in the term and its types can be raised.
fn is_raisable(t: &Term, by: u32) -> bool
    ensures { IsTrue result → IsRaisable by t.now }
{
    index_above_of(t) <= 4294967296 - u64::from(by)
}

/// Whether each index in the terms can be raised.
fn are_raisable(terms: &[Term], by: u32) -> bool
    ensures { IsTrue result → Each (IsRaisable by) terms.now }
{
    for term in terms {
        if !is_raisable(term, by) {
            return false;
        }
    }
    true
}

/// Whether each index in the pair's sides can be raised.
fn is_pair_raisable(pair: &Pair, by: u32) -> bool
    ensures { IsTrue result → IsPairRaisable by pair.now }
{
    is_raisable(&pair.left, by) && is_raisable(&pair.right, by)
}

/// Whether each index in the pairs can be raised.
fn are_pairs_raisable(pairs: &[Pair], by: u32) -> bool
    ensures { IsTrue result → Each (IsPairRaisable by) pairs.now }
{
    for pair in pairs {
        if !is_pair_raisable(pair, by) {
            return false;
        }
    }
    true
}

/// Whether each index in the theorem can be raised.
pub(crate) fn is_theorem_raisable(th: &Thm, by: u32) -> bool
    ensures { IsTrue result → AreRaisable by th.now }
{
    are_raisable(&th.hyps, by) && are_pairs_raisable(&th.pairs, by) && is_raisable(&th.prop, by)
}

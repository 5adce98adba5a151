//! The index above those of a theorem's schematic variables.
ghost use Rattle.std.specs.Prelude.{◌≡◌, ◌∷◌, []};
ghost use Rattle.pure_pairs.specs.Smash as smashing;

use pure_term::{Term, index_above_of};
use pure_theorem::{Pair, Thm};

/// One above the greatest index of a schematic variable of the terms, those of types among them, or 0.
fn terms_index_above(terms: &[Term]) -> u64
    ensures { result ≡ smashing.terms_index_above terms.now }
{
    let mut most: u64 = 0;
    for term in terms {
        most = most.max(index_above_of(term));
    }
    most
}

/// The same of the pair's sides.
fn pair_index_above(pair: &Pair) -> u64
    ensures { result ≡ smashing.pairs_index_above (pair.now ∷ []) }
{
    index_above_of(&pair.left).max(index_above_of(&pair.right))
}

/// The same of pairs.
fn pairs_index_above(pairs: &[Pair]) -> u64
    ensures { result ≡ smashing.pairs_index_above pairs.now }
{
    let mut most: u64 = 0;
    for pair in pairs {
        most = most.max(pair_index_above(pair));
    }
    most
}

/// The same of the theorem.
pub fn theorem_index_above(th: &Thm) -> u64
    ensures { result ≡ smashing.theorem_index_above th.now }
{
    terms_index_above(&th.hyps).max(pairs_index_above(&th.pairs).max(index_above_of(&th.prop)))
}

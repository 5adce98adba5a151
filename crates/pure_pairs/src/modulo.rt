//! Equality modulo pairs.
ghost use Rattle.std.specs.Prelude.{◌≡◌, []};
ghost use Rattle.pure_pairs.specs.Answer.{IsModuloAnswer};

use crate::difference::difference;
use pure_term::{Scope, Term};
use pure_theorem::Pair;

/// Two terms aren't equal modulo pairs: the number in preorder, in the first term, of the first part that fails at its own
/// node. Nodes of types aren't counted.
#[derive(Clone, Copy, Debug, PartialEq, Eq)]
pub struct PairDiffers {
    pub place: u32,
}

/// Whether two terms are equal modulo the pairs. Two parts are where they are equal, or are, below abstractions over the
/// binders around them, the sides of a listed pair, either way round, or are built alike from parts that are equal modulo
/// the pairs. It takes no memory.
///
/// # Errors
///
/// The first part that fails at its own node.
pub fn equal_modulo(pairs: &[Pair], t: &Term, u: &Term) -> Result<(), PairDiffers>
    ensures { IsModuloAnswer pairs.now t.now u.now result }
{
    match difference(pairs, &Scope::Empty, t, u) {
        None => Ok(()),
        Some(place) => Err(PairDiffers { place }),
    }
}

//! Whether a goal is within the limits, as the one proposition that its pairs and its proposition are.
ghost use Rattle.std.specs.Prelude.{◌↔◌, IsTrue, IfOk};
ghost use Rattle.pure_text.specs.Lists.{Each};
ghost use Rattle.pure_definitions.specs.Terms.Term as tree;
ghost use Rattle.pure_definitions.specs.Terms.Term.{IsWithin};
ghost use Rattle.pure_logic.specs.Derivable.{IsUnderPairs};
ghost use Rattle.pure_resolve.specs.Goals.{IsLeftTyped, IsEquationOf};

use pure_term::{Term, is_within};
use pure_theorem::{Pair, Thm, equation, implication, typ_of_typed};
use std::alloc::{AllocError, Global};

/// The equation of the pair.
fn pair_equation(alloc: Global, pair: &Pair) -> Result<Term, AllocError>
    requires { IsLeftTyped pair.now }
    ensures { IfOk result (λ e. IsEquationOf pair.now e) }
{
    let typ = typ_of_typed(alloc, &pair.left)?;
    let left = pair.left.copy(alloc)?;
    let right = pair.right.copy(alloc)?;
    equation(alloc, &typ, left, right)
}

/// The proposition under the equations of the pairs.
fn under_pairs(alloc: Global, pairs: &[Pair], prop: &Term) -> Result<Term, AllocError>
    requires { Each IsLeftTyped pairs.now }
    ensures { IfOk result (λ q. IsUnderPairs pairs.now prop.now q) }
{
    let Some((pair, rest)) = pairs.split_first() else {
        return prop.copy(alloc);
    };
    let premise = pair_equation(alloc, pair)?;
    let conclusion = under_pairs(alloc, rest, prop)?;
    implication(alloc, premise, conclusion)
}

/// Whether the proposition under the equations of the pairs is within the limits.
fn are_small(alloc: Global, pairs: &[Pair], prop: &Term) -> Result<bool, AllocError>
    requires { Each IsLeftTyped pairs.now }
    ensures { IfOk result (λ small. (q : tree.Term) × IsUnderPairs pairs.now prop.now q × (IsTrue small ↔ IsWithin q)) }
{
    if pairs.len() == 0 {
        return Ok(is_within(prop));
    }
    let whole = under_pairs(alloc, pairs, prop)?;
    Ok(is_within(&whole))
}

/// Whether the theorem's pairs and proposition, as one proposition, are within the limits.
pub fn is_small(alloc: Global, th: &Thm) -> Result<bool, AllocError>
    requires { Each IsLeftTyped th.now.pairs }
    ensures { IfOk result (λ small. (q : tree.Term) × IsUnderPairs th.now.pairs th.now.prop q × (IsTrue small ↔ IsWithin q)) }
{
    let small = are_small(alloc, &th.pairs, &th.prop)?;
    Ok(small)
}

//! Theorems whose pairs are smashed.
ghost use Rattle.std.specs.Prelude.{◌≡◌, ◌≢◌, ◌∷◌, ◌<◌, length, map, IfOk};
ghost use Rattle.pure_text.specs.Lists.{Each};
ghost use Rattle.pure_logic.specs.Derivable.{IsDerivable};
ghost use Rattle.pure_theorem.specs.Facts.{IsTheoryContent};
ghost use Rattle.pure_pairs.specs.Trivial.{IsTheoremGrown};
ghost use Rattle.pure_unify_definitions.specs.Children.{IsFlexFlex};
ghost use Rattle.pure_pairs.specs.Smash as smashing;

use crate::constant::{with_constants, written_typ};
use crate::index::theorem_index_above;
use crate::plain::is_plain;
use crate::trivial::grown;
use pure_term::{Grow, Name, Term, TermNode, Typ};
use pure_theorem::{Base, Pair, Thm, are_same, copied_pairs, copied_terms, prop_typ, set_of_terms};
use pure_unify_sides::{head, range_of};
use std::alloc::{AllocError, Global};

/// The type in which the type of the left side's head ends.
fn result_typ(alloc: Global, pair: &Pair) -> Result<Typ, AllocError>
    ensures { IfOk result (λ T. T ≡ smashing.result_typ pair.now) }
{
    let propositions = prop_typ(alloc);
    range_of(written_typ(head(&pair.left), &propositions)).copy(alloc)
}

/// The fresh variable of the sides' result type. An index that is no number of the program is want of memory.
fn fresh_variable(alloc: Global, th: &Thm, pair: &Pair) -> Result<Term, AllocError>
    ensures { IfOk result (λ v. v ≡ smashing.fresh_variable th.now pair.now) }
{
    let above = theorem_index_above(th);
    if above > u32::MAX as u64 {
        return Err(AllocError);
    }
    let index = above as u32;
    let typ = result_typ(alloc, pair)?;
    let name = Name(0);
    let node = TermNode::Var { name, index, typ };
    Ok(Term { node })
}

/// The terms with the heads of the pair become constant functions.
fn terms_with(alloc: Global, pair: &Pair, c: &Term, terms: &[Term]) -> Result<Vec<Term>, AllocError>
    ensures { IfOk result (λ made. made.items ≡ map (smashing.with_constants pair.now c.now) terms.now) }
{
    let mut made = Vec::with_capacity(alloc, terms.len())?;
    for term in terms {
        made.push(with_constants(alloc, pair, c, term)?)?;
    }
    Ok(made)
}

/// The other pair with the heads of the pair become constant functions.
fn pair_with(alloc: Global, pair: &Pair, c: &Term, other: &Pair) -> Result<Pair, AllocError>
    ensures { IfOk result (λ made. made ≡ smashing.pair_with pair.now c.now other.now) }
{
    let left = with_constants(alloc, pair, c, &other.left)?;
    let right = with_constants(alloc, pair, c, &other.right)?;
    Ok(Pair { left, right })
}

/// The other pairs with the heads of the pair become constant functions.
fn pairs_with(
    alloc: Global,
    pair: &Pair,
    c: &Term,
    others: &[Pair],
) -> Result<Vec<Pair>, AllocError>
    ensures { IfOk result (λ made. made.items ≡ map (smashing.pair_with pair.now c.now) others.now) }
{
    let mut made = Vec::with_capacity(alloc, others.len())?;
    for other in others {
        made.push(pair_with(alloc, pair, c, other)?)?;
    }
    Ok(made)
}

/// The theorem, under these pairs, with the heads of the pair become constant functions that give the variable.
fn theorem_with(
    alloc: Global,
    th: &Thm,
    pair: &Pair,
    c: &Term,
    rest: &[Pair],
) -> Result<Thm, AllocError>
    ensures { IfOk result (smashing.IsWithConstants pair.now c.now rest.now th.now) }
{
    let hyps = set_of_terms(terms_with(alloc, pair, c, &th.hyps)?)?;
    let pairs = pairs_with(alloc, pair, c, rest)?;
    let prop = with_constants(alloc, pair, c, &th.prop)?;
    let rests = Vec::from_slice(alloc, &th.rests)?;
    Ok(Thm {
        hyps,
        pairs,
        prop,
        rests,
    })
}

/// The theorem under these pairs.
fn under_pairs(alloc: Global, th: &Thm, pairs: &[Pair]) -> Result<Thm, AllocError>
    ensures { IfOk result (λ new. new ≡ record th.now { pairs = pairs.now }) }
{
    let hyps = copied_terms(alloc, &th.hyps)?;
    let pairs = copied_pairs(alloc, pairs)?;
    let prop = th.prop.copy(alloc)?;
    let rests = Vec::from_slice(alloc, &th.rests)?;
    Ok(Thm {
        hyps,
        pairs,
        prop,
        rests,
    })
}

/// The theorem with its first pair treated.
fn without_first(alloc: Global, th: &Thm) -> Result<Thm, AllocError>
    requires { 0 < length th.now.pairs }
    ensures { IfOk result (smashing.IsOneFewer th.now) }
{
    let Some((first, rest)) = th.pairs.as_slice().split_first() else {
        unreachable!();
    };
    if are_same(&first.left, &first.right) {
        return under_pairs(alloc, th, rest);
    }
    let c = fresh_variable(alloc, th, first)?;
    theorem_with(alloc, th, first, &c, rest)
}

/// The theorem with all its pairs treated, in order. Where none of their variables stands in what it says, they only go.
fn smashed(alloc: Global, th: &Thm) -> Result<Thm, AllocError>
    ensures { IfOk result (smashing.Smashes th.now) }
{
    if is_plain(th) {
        return under_pairs(alloc, th, &[]);
    }
    let mut left = th.copy(alloc)?;
    for turn in 0..th.pairs.len() {
        left = without_first(alloc, &left)?;
    }
    Ok(left)
}

/// The theorem without its pairs. They are taken in order: one with equal sides is dropped; of another the head variable of each side becomes, in the whole theorem, the constant function that gives one fresh variable of the sides' result type, and what is applied of it is reduced.
///
/// # Errors
///
/// `Big` where a term of it isn't within the limits.
pub fn smash<B: Base>(alloc: Global, _thy: &B, th: &Thm) -> Result<Thm, Grow>
    ensures answer { IsTheoremGrown (smashing.Smashes th.now) result }
    ensures derivable { let Q = B.content _thy.now in IsTheoryContent Q → Each IsFlexFlex th.now.pairs → IsDerivable Q th.now → IfOk result (IsDerivable Q) }
{
    grown(smashed(alloc, th)?)
}

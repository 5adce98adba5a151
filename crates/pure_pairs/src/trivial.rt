//! Theorems without the pairs whose sides are equal.
ghost use Rattle.std.specs.Prelude.{◌≡◌, ◌∷◌, [], ◌++◌, IfOk, OnOk};
ghost use Rattle.pure_logic.specs.Derivable.{IsDerivable};
ghost use Rattle.pure_theorem.specs.Facts.{IsTheoryContent};
ghost use Rattle.pure_pairs.specs.Trivial.{without_trivial, dropped, IsTheoremGrown};

use pure_term::Grow;
use pure_theorem::{Base, Pair, Thm, copied_terms};
use std::alloc::{AllocError, Global};

/// Puts an equal pair behind those of the list, unless its sides are equal.
fn keep(alloc: Global, kept: &mut Vec<Pair>, pair: &Pair) -> Result<(), AllocError>
    ensures { OnOk result (kept.new.items ≡ kept.old.items ++ without_trivial (pair.now ∷ [])) }
{
    if pair.left != pair.right {
        kept.push(pair.copy(alloc)?)?;
    }
    Ok(())
}

/// Those of the pairs whose sides differ.
fn kept_pairs(alloc: Global, pairs: &[Pair]) -> Result<Vec<Pair>, AllocError>
    ensures { IfOk result (λ kept. kept.items ≡ without_trivial pairs.now) }
{
    let mut kept = Vec::new(alloc);
    for pair in pairs {
        keep(alloc, &mut kept, pair)?;
    }
    Ok(kept)
}

/// The theorem with those pairs alone.
fn without_pairs(alloc: Global, th: &Thm) -> Result<Thm, AllocError>
    ensures { IfOk result (λ new. new ≡ dropped th.now) }
{
    let hyps = copied_terms(alloc, &th.hyps)?;
    let pairs = kept_pairs(alloc, &th.pairs)?;
    let prop = th.prop.copy(alloc)?;
    let rests = Vec::from_slice(alloc, &th.rests)?;
    Ok(Thm {
        hyps,
        pairs,
        prop,
        rests,
    })
}

/// The theorem itself, where it is within the limits.
pub fn grown(th: Thm) -> Result<Thm, Grow>
    ensures { IsTheoremGrown (λ made. made ≡ th) result }
{
    if th.is_within() {
        Ok(th)
    } else {
        Err(Grow::Big)
    }
}

/// The theorem without the pairs whose sides are equal.
///
/// # Errors
///
/// `Big` where a term of it isn't within the limits.
pub fn drop_trivial<B: Base>(alloc: Global, _thy: &B, th: &Thm) -> Result<Thm, Grow>
    ensures answer { IsTheoremGrown (λ new. new ≡ dropped th.now) result }
    ensures derivable { let Q = B.content _thy.now in IsTheoryContent Q → IsDerivable Q th.now → IfOk result (IsDerivable Q) }
{
    grown(without_pairs(alloc, th)?)
}

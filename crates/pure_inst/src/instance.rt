//! Instances of theorems by finite maps.
ghost use Rattle.std.specs.Prelude.{◌≡◌, ◌↔◌, [], IsTrue, IfOk, MatchOption, map};
ghost use Rattle.pure_text.specs.Lists.{Each};
ghost use Rattle.pure_definitions.specs.Types.Order.{IsOfSort};
ghost use Rattle.pure_definitions.specs.Terms.Term.{IsWithin};
ghost use Rattle.pure_definitions.specs.Terms.Typing.{HasType};
ghost use Rattle.pure_definitions.specs.Terms.Subst.{AreSortRespecting, AreTypeRespecting};
ghost use Rattle.pure_definitions.specs.Declarations.Decl.{algebra_of};
ghost use Rattle.pure_definitions.specs.Declarations.Certified.{IsCertifiedTyp, IsCertified};
ghost use Rattle.pure_logic.specs.Derivable.{IsDerivable};
ghost use Rattle.pure_logic.specs.Laws.Maps.{instantiated};
ghost use Rattle.pure_theorem.specs.Facts.{IsTheoryContent};
ghost use Rattle.pure_theorem.specs.First.{IsFirstWith};
ghost use Rattle.pure_theorem.specs.Within.{IsPairWithin};
ghost use Rattle.pure_inst.specs.Image.{pair_image, IsImage, AreImagesWithin, IsMapAnswer};
ghost use Rattle.pure_inst.specs.Instance.{GivesInstance, RefusesInstance};

use crate::fault::InstFault;
use crate::image::{fits, instantiated};
use crate::named::cut_place;
use crate::ordered::Ordered;
use pure_order::Order;
use pure_term::{Term, TermBind, TermMap, TypBind, TypMap};
use pure_theorem::{Pair, Thm, has_typ, set_of_terms};
use std::alloc::{AllocError, Global};

/// Whether the entry's image is of its variable's sort.
fn is_sorted(order: &Order, bind: &TypBind) -> bool
    ensures { IsTrue result ↔ IsOfSort order.now bind.now.image bind.now.sort }
{
    order.of_sort(&bind.image, &bind.sort)
}

/// The place of the first entry whose image isn't of its variable's sort.
fn first_unsorted(order: &Order, binds: &[TypBind]) -> Option<u32>
    ensures { MatchOption result (AreSortRespecting order.now binds.now) (IsFirstWith (λ b. ¬ IsOfSort order.now b.image b.sort) binds.now) }
{
    for (place, bind) in binds.iter().enumerate() {
        if !is_sorted(order, bind) {
            return Some(cut_place(place));
        }
    }
    None
}

/// Whether the entry's image has its variable's type.
fn is_typed(alloc: Global, bind: &TermBind) -> Result<bool, AllocError>
    ensures { IfOk result (λ has. IsTrue has ↔ HasType [] bind.now.image bind.now.typ) }
{
    has_typ(alloc, &bind.image, &bind.typ)
}

/// The place of the first entry whose image has not its variable's type.
fn first_mistyped(alloc: Global, binds: &[TermBind]) -> Result<Option<u32>, AllocError>
    ensures { IfOk result (λ found. MatchOption found (AreTypeRespecting binds.now) (IsFirstWith (λ b. ¬ HasType [] b.image b.typ) binds.now)) }
{
    for (place, bind) in binds.iter().enumerate() {
        if !is_typed(alloc, bind)? {
            return Ok(Some(cut_place(place)));
        }
    }
    Ok(None)
}

/// Whether the images of the terms are within the limits.
fn all_fit(ts: &[Term], typs: &TypMap, terms: &TermMap) -> bool
    ensures { IsTrue result ↔ Each (λ t. IsWithin (instantiated typs.now terms.now t)) ts.now }
{
    for t in ts {
        if !fits(t, typs, terms) {
            return false;
        }
    }
    true
}

/// Whether the images of the pair's sides are within the limits.
fn pair_fits(pair: &Pair, typs: &TypMap, terms: &TermMap) -> bool
    ensures { IsTrue result ↔ IsPairWithin (pair_image (instantiated typs.now terms.now) pair.now) }
{
    fits(&pair.left, typs, terms) && fits(&pair.right, typs, terms)
}

/// Whether the images of the pairs' sides are within the limits.
fn all_pairs_fit(pairs: &[Pair], typs: &TypMap, terms: &TermMap) -> bool
    ensures { IsTrue result ↔ Each (λ p. IsPairWithin (pair_image (instantiated typs.now terms.now) p)) pairs.now }
{
    for pair in pairs {
        if !pair_fits(pair, typs, terms) {
            return false;
        }
    }
    true
}

/// Whether the images of the theorem's terms are within the limits.
fn theorem_fits(th: &Thm, typs: &TypMap, terms: &TermMap) -> bool
    ensures { IsTrue result ↔ AreImagesWithin (instantiated typs.now terms.now) th.now }
{
    all_fit(&th.hyps, typs, terms)
        && all_pairs_fit(&th.pairs, typs, terms)
        && fits(&th.prop, typs, terms)
}

/// The images of the terms.
fn images(
    alloc: Global,
    ts: &[Term],
    typs: &TypMap,
    terms: &TermMap,
) -> Result<Vec<Term>, AllocError>
    ensures { IfOk result (λ made. made.items ≡ map (instantiated typs.now terms.now) ts.now) }
{
    let mut made = Vec::with_capacity(alloc, ts.len())?;
    for t in ts {
        made.push(instantiated(alloc, t, typs, terms)?)?;
    }
    Ok(made)
}

/// The image of the pair.
fn pair_image(
    alloc: Global,
    pair: &Pair,
    typs: &TypMap,
    terms: &TermMap,
) -> Result<Pair, AllocError>
    ensures { IfOk result (λ made. made ≡ pair_image (instantiated typs.now terms.now) pair.now) }
{
    let left = instantiated(alloc, &pair.left, typs, terms)?;
    let right = instantiated(alloc, &pair.right, typs, terms)?;
    Ok(Pair { left, right })
}

/// The images of the pairs.
fn images_of_pairs(
    alloc: Global,
    pairs: &[Pair],
    typs: &TypMap,
    terms: &TermMap,
) -> Result<Vec<Pair>, AllocError>
    ensures { IfOk result (λ made. made.items ≡ map (pair_image (instantiated typs.now terms.now)) pairs.now) }
{
    let mut made = Vec::with_capacity(alloc, pairs.len())?;
    for pair in pairs {
        made.push(pair_image(alloc, pair, typs, terms)?)?;
    }
    Ok(made)
}

/// The instance of the theorem.
fn put_into(alloc: Global, typs: &TypMap, terms: &TermMap, th: &Thm) -> Result<Thm, AllocError>
    ensures { IfOk result (IsImage (instantiated typs.now terms.now) th.now) }
{
    let hyps = set_of_terms(images(alloc, &th.hyps, typs, terms)?)?;
    let pairs = images_of_pairs(alloc, &th.pairs, typs, terms)?;
    let prop = instantiated(alloc, &th.prop, typs, terms)?;
    let rests = Vec::from_slice(alloc, &th.rests)?;
    Ok(Thm {
        hyps,
        pairs,
        prop,
        rests,
    })
}

/// The theorem with types put in, and then terms, for variables written with their new types. Nothing is normalised. `SortFails` where an image isn't of its variable's sort, else `TypeDiffers` where one has not its variable's type, else `Big` where a term of the answer isn't within the limits.
///
///         H |- A
///     --------------
///      H[t] |- A[t]
pub fn instantiate<B: Ordered>(
    alloc: Global,
    thy: &B,
    typs: &TypMap,
    terms: &TermMap,
    th: &Thm,
) -> Result<Thm, InstFault>
    ensures answer { let algebra = algebra_of (B.content thy.now).declarations in IsMapAnswer (GivesInstance algebra typs.now terms.now th.now) (RefusesInstance algebra typs.now terms.now) result }
    ensures derivable { let Q = B.content thy.now in IsTheoryContent Q → Each (λ b. IsCertifiedTyp Q.declarations b.image) typs.now → Each (λ b. IsCertified Q.declarations b.image) terms.now → IsDerivable Q th.now → IfOk result (IsDerivable Q) }
{
    if let Some(place) = first_unsorted(thy.order(), typs.binds()) {
        return Err(InstFault::SortFails { place });
    }
    if let Some(place) = first_mistyped(alloc, terms.binds())? {
        return Err(InstFault::TypeDiffers { place });
    }
    if !theorem_fits(th, typs, terms) {
        return Err(InstFault::Big);
    }
    Ok(put_into(alloc, typs, terms, th)?)
}

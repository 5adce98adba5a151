//! Steps of the search: what is known, and what follows from it at once.
ghost use Rattle.std.specs.Prelude.{◌≡◌, ◌<◌, ◌⊎◌, IfOk, IfSome, OnOk, length};
ghost use Rattle.pure_kernel.specs.Texts.Lists.{IsIn};
ghost use Rattle.pure_kernel.specs.Definitions.Declarations.Certified.{IsCertified};
ghost use Rattle.pure_kernel.specs.Logic.Connectives.{imp};
ghost use Rattle.pure_kernel.specs.Logic.Content.{Content};
ghost use Rattle.pure_kernel.specs.Logic.Derivable.{Theorem, IsDerivable};
ghost use Rattle.pure_kernel.specs.Theorems.Facts.{IsTheoryContent};
ghost use Rattle.pure_tauto.specs.Decided.{AreDerivable};

use pure_kernel::{
    Base, RuleFault, Term, Thm, are_same, as_implication, assume, implies_elim, implies_intro,
};
use std::alloc::{AllocError, Global};

/// How many inferences a search may draw.
pub(crate) const INFERENCES: u32 = 100_000;

/// Takes so many inferences from those that are left, if there are as many; else none is left.
pub(crate) fn spend(left: &mut u32, count: u32) -> bool {
    match left.checked_sub(count) {
        Some(rest) => {
            *left = rest;
            true
        }
        None => {
            *left = 0;
            false
        }
    }
}

/// The place of a theorem that states this.
pub(crate) fn place_of(known: &[Thm], prop: &Term) -> Option<usize>
    ensures { IfSome result (λ place. place < length known.now) }
{
    for (place, th) in known.iter().enumerate() {
        if are_same(&th.prop, prop) {
            return Some(place);
        }
    }
    None
}

/// Puts a copy of the theorem behind the others, unless it is to be left out.
fn put(alloc: Global, some: &mut Vec<Thm>, th: &Thm, is_out: bool) -> Result<(), AllocError>
    ensures { OnOk result ((x : Theorem) → IsIn x some.new.items → IsIn x some.old.items ⊎ (x ≡ th.now)) }
{
    if is_out {
        return Ok(());
    }
    let copy = th.copy(alloc)?;
    some.push(copy)?;
    Ok(())
}

/// Copies of the theorems, without that at the place.
pub(crate) fn others(alloc: Global, known: &[Thm], place: usize) -> Result<Vec<Thm>, AllocError>
    ensures { IfOk result (λ some. (x : Theorem) → IsIn x some.items → IsIn x known.now) }
{
    let mut some = Vec::new(alloc);
    for (at, th) in known.iter().enumerate() {
        put(alloc, &mut some, th, at == place)?;
    }
    Ok(some)
}

/// Copies of the theorems with this one in place of that at the place, or beside all where there is no such place.
pub(crate) fn with(
    alloc: Global,
    known: &[Thm],
    place: usize,
    th: Thm,
) -> Result<Vec<Thm>, AllocError>
    ensures { IfOk result (λ more. (x : Theorem) → IsIn x more.items → IsIn x known.now ⊎ (x ≡ th)) }
{
    let mut more = others(alloc, known, place)?;
    more.push(th)?;
    Ok(more)
}

/// The places of an implication that is known and of its premise, which is known, too.
fn detachable(known: &[Thm]) -> Option<(usize, usize)>
    ensures { IfSome result (λ places. places.0 < length known.now × places.1 < length known.now) }
{
    for (place, th) in known.iter().enumerate() {
        if let Some((premise, _)) = as_implication(&th.prop) {
            if let Some(other) = place_of(known, premise) {
                return Some((place, other));
            }
        }
    }
    None
}

/// What is known, with `B` in place of some `A ==> B` for which `A` is known.
fn detached_at<B: Base>(
    alloc: Global,
    thy: &B,
    known: &[Thm],
    place: usize,
    other: usize,
) -> Result<Vec<Thm>, RuleFault>
    requires implication { place < length known.now }
    requires premise { other < length known.now }
    ensures { let Q = B.content thy.now in IsTheoryContent Q → AreDerivable Q known.now → IfOk result (λ more. AreDerivable Q more.items) }
{
    let implication = &known[place];
    let premise = &known[other];
    let th = implies_elim(alloc, thy, implication, premise)?;
    let more = with(alloc, known, place, th)?;
    Ok(more)
}

/// What is known, with `B` in place of each `A ==> B` for which `A` is known, as long as inferences are left.
pub(crate) fn detached<B: Base>(
    alloc: Global,
    thy: &B,
    left: &mut u32,
    known: &[Thm],
) -> Result<Vec<Thm>, RuleFault>
    ensures { let Q = B.content thy.now in IsTheoryContent Q → AreDerivable Q known.now → IfOk result (λ more. AreDerivable Q more.items) }
{
    let mut all = others(alloc, known, known.len())?;
    'detaching: for _ in 0..INFERENCES {
        let Some((place, other)) = detachable(&all) else {
            return Ok(all);
        };
        if !spend(left, 1) {
            return Ok(all);
        }
        all = detached_at(alloc, thy, &all, place, other)?;
    }
    Ok(all)
}

/// `A ==> B`, from `B` assumed.
fn constant<B: Base>(alloc: Global, thy: &B, a: &Term, b: &Term) -> Result<Thm, RuleFault>
    ensures { let Q = B.content thy.now in IsTheoryContent Q → IsCertified Q.declarations (imp a.now b.now) → IfOk result (IsDerivable Q) }
{
    let assumed = assume(alloc, thy, b)?;
    implies_intro(alloc, thy, a, &assumed)
}

/// From `(A ==> B) ==> C`: `C`, from `B` assumed.
fn conclusion<B: Base>(
    alloc: Global,
    thy: &B,
    a: &Term,
    b: &Term,
    th: &Thm,
) -> Result<Thm, RuleFault>
    ensures { let Q = B.content thy.now in IsTheoryContent Q → IsCertified Q.declarations (imp a.now b.now) → IsDerivable Q th.now → IfOk result (IsDerivable Q) }
{
    let premise = constant(alloc, thy, a, b)?;
    implies_elim(alloc, thy, th, &premise)
}

/// From `(A ==> B) ==> C`: `B ==> C`.
fn weaker<B: Base>(alloc: Global, thy: &B, a: &Term, b: &Term, th: &Thm) -> Result<Thm, RuleFault>
    ensures { let Q = B.content thy.now in IsTheoryContent Q → IsCertified Q.declarations (imp a.now b.now) → IsDerivable Q th.now → IfOk result (IsDerivable Q) }
{
    let conclusion = conclusion(alloc, thy, a, b, th)?;
    implies_intro(alloc, thy, b, &conclusion)
}

/// What is known, with `B ==> C` in place of `(A ==> B) ==> C`.
pub(crate) fn weakened<B: Base>(
    alloc: Global,
    thy: &B,
    known: &[Thm],
    place: usize,
    a: &Term,
    b: &Term,
) -> Result<Vec<Thm>, RuleFault>
    requires { place < length known.now }
    ensures { let Q = B.content thy.now in IsTheoryContent Q → IsCertified Q.declarations (imp a.now b.now) → AreDerivable Q known.now → IfOk result (λ more. AreDerivable Q more.items) }
{
    let whole = &known[place];
    let th = weaker(alloc, thy, a, b, whole)?;
    let more = with(alloc, known, place, th)?;
    Ok(more)
}

/// What is known, and `A`.
pub(crate) fn with_assumed<B: Base>(
    alloc: Global,
    thy: &B,
    known: &[Thm],
    a: &Term,
) -> Result<Vec<Thm>, RuleFault>
    ensures { let Q = B.content thy.now in IsCertified Q.declarations a.now → AreDerivable Q known.now → IfOk result (λ more. AreDerivable Q more.items) }
{
    let assumed = assume(alloc, thy, a)?;
    let more = with(alloc, known, known.len(), assumed)?;
    Ok(more)
}

/// `A ==> B`, where `B` was found.
pub(crate) fn discharged<B: Base>(
    alloc: Global,
    thy: &B,
    a: &Term,
    found: Option<Thm>,
) -> Result<Option<Thm>, RuleFault>
    ensures { let Q = B.content thy.now in IsTheoryContent Q → IsCertified Q.declarations a.now → IfSome found (IsDerivable Q) → IfOk result (λ new. IfSome new (IsDerivable Q)) }
{
    match &found {
        Some(th) => {
            let new = implies_intro(alloc, thy, a, th)?;
            Ok(Some(new))
        }
        None => Ok(None),
    }
}

/// What is known, with `C` in place of `(A ==> B) ==> C`, by `A ==> B`.
fn concluded_by<B: Base>(
    alloc: Global,
    thy: &B,
    known: &[Thm],
    place: usize,
    th: &Thm,
) -> Result<Vec<Thm>, RuleFault>
    requires { place < length known.now }
    ensures { let Q = B.content thy.now in IsTheoryContent Q → AreDerivable Q known.now → IsDerivable Q th.now → IfOk result (λ more. AreDerivable Q more.items) }
{
    let whole = &known[place];
    let conclusion = implies_elim(alloc, thy, whole, th)?;
    let more = with(alloc, known, place, conclusion)?;
    Ok(more)
}

/// The same, where `A ==> B` was found.
pub(crate) fn concluded<B: Base>(
    alloc: Global,
    thy: &B,
    known: &[Thm],
    place: usize,
    found: Option<Thm>,
) -> Result<Option<Vec<Thm>>, RuleFault>
    requires { place < length known.now }
    ensures { let Q = B.content thy.now in IsTheoryContent Q → AreDerivable Q known.now → IfSome found (IsDerivable Q) → IfOk result (λ new. IfSome new (λ more. AreDerivable Q more.items)) }
{
    match &found {
        Some(th) => {
            let more = concluded_by(alloc, thy, known, place, th)?;
            Ok(Some(more))
        }
        None => Ok(None),
    }
}

/// A copy of the theorem at the place.
pub(crate) fn copied<B: Base>(
    alloc: Global,
    _thy: &B,
    known: &[Thm],
    place: usize,
) -> Result<Option<Thm>, RuleFault>
    requires { place < length known.now }
    ensures { let Q = B.content _thy.now in AreDerivable Q known.now → IfOk result (λ found. IfSome found (IsDerivable Q)) }
{
    let whole = &known[place];
    let th = whole.copy(alloc)?;
    Ok(Some(th))
}

/// `A` and `B`, where the theorem at the place states `(A ==> B) ==> C`.
pub(crate) fn premise_at(known: &[Thm], place: usize) -> Option<(&Term, &Term)>
    requires { place < length known.now }
    ensures { IfSome result (λ parts. (Q : Content) → IsTheoryContent Q → AreDerivable Q known.now → IsCertified Q.declarations (imp parts.0.now parts.1.now)) }
{
    let th = &known[place];
    let Some((premise, _)) = as_implication(&th.prop) else {
        return None;
    };
    let Some((a, b)) = as_implication(premise) else {
        return None;
    };
    Some((a, b))
}

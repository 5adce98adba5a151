//! The search for a proof, by rules without contraction (R. Dyckhoff, Contraction-free sequent calculi for intuitionistic logic,
//! Journal of Symbolic Logic 57, 1992), each of which is an inference or a few.
ghost use Rattle.std.specs.Prelude.{◌≡◌, ◌<◌, [], IfOk, IfErr, IfSome, IsTrue, OnOk, Some, length};
ghost use Rattle.pure_kernel.specs.Definitions.Types.Typ as types;
ghost use Rattle.pure_kernel.specs.Definitions.Terms.Typing.{HasType};
ghost use Rattle.pure_kernel.specs.Definitions.Declarations.Certified.{IsCertified};
ghost use Rattle.pure_kernel.specs.Logic.Connectives.{imp};
ghost use Rattle.pure_kernel.specs.Logic.Derivable.{IsDerivable};
ghost use Rattle.pure_kernel.specs.Theorems.Facts.{IsTheoryContent};
ghost use Rattle.pure_tauto.specs.Decided.{proved, AreDerivable, IsRefusal, IsStop};

use crate::steps::{
    INFERENCES, concluded, copied, detached, discharged, place_of, premise_at, spend, weakened,
    with_assumed,
};
use pure_kernel::{Base, RuleFault, Term, Thm, are_same, as_implication, has_typ, prop_typ};
use std::alloc::Global;

/// How deep a search may go: below this many rules of the right side and of nested premises.
const LEVELS: u32 = 1_000;

/// The goal from what is known.
#[cycle(search)]
fn prove<B: Base>(
    alloc: Global,
    thy: &B,
    left: &mut u32,
    levels: u32,
    known: &[Thm],
    goal: &Term,
) -> Result<Option<Thm>, RuleFault>
    ensures { let Q = B.content thy.now in IsTheoryContent Q → IsCertified Q.declarations goal.now → AreDerivable Q known.now → IfOk result (λ found. IfSome found (IsDerivable Q)) }
{
    if levels == 0 {
        return Ok(None);
    }
    match as_implication(goal) {
        Some((a, b)) => prove_implication(alloc, thy, left, levels - 1, known, a, b),
        None => prove_other(alloc, thy, left, levels - 1, known, goal),
    }
}

/// `A ==> B` from what is known: `B` from that and `A`.
#[cycle(search)]
fn prove_implication<B: Base>(
    alloc: Global,
    thy: &B,
    left: &mut u32,
    levels: u32,
    known: &[Thm],
    a: &Term,
    b: &Term,
) -> Result<Option<Thm>, RuleFault>
    ensures { let Q = B.content thy.now in IsTheoryContent Q → IsCertified Q.declarations (imp a.now b.now) → AreDerivable Q known.now → IfOk result (λ found. IfSome found (IsDerivable Q)) }
{
    if !spend(left, 2) {
        return Ok(None);
    }
    let more = with_assumed(alloc, thy, known, a)?;
    let found = prove(alloc, thy, left, levels, &more, b)?;
    discharged(alloc, thy, a, found)
}

/// A goal that is no implication: it is known, or follows from what is known with `C` in place of some `(A ==> B) ==> C`.
#[cycle(search)]
fn prove_other<B: Base>(
    alloc: Global,
    thy: &B,
    left: &mut u32,
    levels: u32,
    given: &[Thm],
    goal: &Term,
) -> Result<Option<Thm>, RuleFault>
    ensures { let Q = B.content thy.now in IsTheoryContent Q → IsCertified Q.declarations goal.now → AreDerivable Q given.now → IfOk result (λ found. IfSome found (IsDerivable Q)) }
{
    let known = detached(alloc, thy, left, given)?;
    if let Some(place) = place_of(&known, goal) {
        return copied(alloc, thy, &known, place);
    }
    match fulfilled(alloc, thy, left, levels, &known)? {
        Some(more) => prove(alloc, thy, left, levels, &more, goal),
        None => Ok(None),
    }
}

/// What is known, with `C` in place of some `(A ==> B) ==> C` for which `A ==> B` can be proved.
#[cycle(search)]
fn fulfilled<B: Base>(
    alloc: Global,
    thy: &B,
    left: &mut u32,
    levels: u32,
    known: &[Thm],
) -> Result<Option<Vec<Thm>>, RuleFault>
    ensures { let Q = B.content thy.now in IsTheoryContent Q → AreDerivable Q known.now → IfOk result (λ found. IfSome found (λ more. AreDerivable Q more.items)) }
{
    for place in 0..known.len() {
        if let Some(more) = fulfilled_at(alloc, thy, left, levels, known, place)? {
            return Ok(Some(more));
        }
    }
    Ok(None)
}

/// The same for the theorem at this place. `A ==> B` is proved from what is known with `B ==> C` in its place.
#[cycle(search)]
fn fulfilled_at<B: Base>(
    alloc: Global,
    thy: &B,
    left: &mut u32,
    levels: u32,
    known: &[Thm],
    place: usize,
) -> Result<Option<Vec<Thm>>, RuleFault>
    requires { place < length known.now }
    ensures { let Q = B.content thy.now in IsTheoryContent Q → AreDerivable Q known.now → IfOk result (λ found. IfSome found (λ more. AreDerivable Q more.items)) }
{
    let Some((a, b)) = premise_at(known, place) else {
        return Ok(None);
    };
    if !spend(left, 5) {
        return Ok(None);
    }
    let less = weakened(alloc, thy, known, place, a, b)?;
    let found = prove_implication(alloc, thy, left, levels, &less, a, b)?;
    concluded(alloc, thy, known, place, found)
}

/// Whether the theorem states the goal and rests on nothing.
fn is_proof(th: &Thm, goal: &Term) -> bool
    ensures hyps { IsTrue result → th.now.hyps ≡ [] }
    ensures pairs { IsTrue result → th.now.pairs ≡ [] }
    ensures prop { IsTrue result → th.now.prop ≡ goal.now }
    ensures rests { IsTrue result → th.now.rests ≡ [] }
{
    if !th.hyps.as_slice().is_empty() {
        return false;
    }
    if !th.pairs.as_slice().is_empty() {
        return false;
    }
    if !th.rests.as_slice().is_empty() {
        return false;
    }
    are_same(&th.prop, goal)
}

/// What was found, if it is a proof of the goal.
fn plain(found: Option<Thm>, goal: &Term) -> Option<Thm>
    ensures same { IfSome result (λ th. found ≡ Some th) }
    ensures plain { IfSome result (λ th. th ≡ proved goal.now) }
{
    let Some(th) = found else {
        return None;
    };
    if is_proof(&th, goal) {
        return Some(th);
    }
    None
}

/// The fault of the search, if it is one of the two that come; no search is stopped by another.
fn stopped(fault: RuleFault) -> Result<(), RuleFault>
    ensures { IfErr result IsStop }
{
    match fault {
        RuleFault::Big => Err(RuleFault::Big),
        RuleFault::Memory => Err(RuleFault::Memory),
        _ => Ok(()),
    }
}

/// What the search finds, if it is a proof of the goal.
fn searched<B: Base>(alloc: Global, thy: &B, goal: &Term) -> Result<Option<Thm>, RuleFault>
    ensures proved { IfOk result (λ found. IfSome found (λ th. th ≡ proved goal.now)) }
    ensures derivable { let Q = B.content thy.now in IsTheoryContent Q → IsCertified Q.declarations goal.now → IfOk result (λ found. IfSome found (IsDerivable Q)) }
    ensures fault { IfErr result IsStop }
{
    let mut left = INFERENCES;
    match prove(alloc, thy, &mut left, LEVELS, &[], goal) {
        Ok(found) => Ok(plain(found, goal)),
        Err(fault) => {
            stopped(fault)?;
            Ok(None)
        }
    }
}

/// A theorem that states the goal, of implications alone over propositions of any other form, if the search finds a proof. It
/// decides minimal logic; after 100,000 inferences, or 1,000 levels deep, it gives up with none.
pub fn decide<B: Base>(alloc: Global, thy: &B, goal: &Term) -> Result<Option<Thm>, RuleFault>
    ensures proved { IfOk result (λ found. IfSome found (λ th. th ≡ proved goal.now)) }
    ensures derivable { let Q = B.content thy.now in IsTheoryContent Q → IsCertified Q.declarations goal.now → IfOk result (λ found. IfSome found (IsDerivable Q)) }
    ensures proposition { OnOk result (HasType [] goal.now types.prop) }
    ensures fault { IfErr result (IsRefusal goal.now) }
{
    if !has_typ(alloc, goal, &prop_typ(alloc))? {
        return Err(RuleFault::NotProp);
    }
    let found = searched(alloc, thy, goal)?;
    Ok(found)
}

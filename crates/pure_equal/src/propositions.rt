//! Equality of propositions.
ghost use Rattle.std.specs.Prelude.{IfOk};
ghost use Rattle.pure_logic.specs.Derivable.{IsDerivable};
ghost use Rattle.pure_theorem.specs.Facts.{IsTheoryContent};
ghost use Rattle.pure_theorem.specs.Answer.{IsAnswer};
ghost use Rattle.pure_equal.specs.Propositions.{GivesEqualIntr, RefusesEqualIntr, GivesEqualElim, RefusesEqualElim};

use crate::equivalence::equation_of;
use pure_theorem::{
    Base, RuleFault, Thm, are_same, as_equation, as_implication, from_two, prop_typ,
};
use std::alloc::Global;

/// From `A ==> B` and `B ==> A`: `A == B`.
///
///      H |- A ==> B    K |- B ==> A
///     ------------------------------
///            H, K |- A == B
pub fn equal_intr<B: Base>(alloc: Global, thy: &B, ab: &Thm, ba: &Thm) -> Result<Thm, RuleFault>
    ensures answer { IsAnswer (GivesEqualIntr ab.now ba.now) (RefusesEqualIntr ab.now ba.now) result }
    ensures derivable { let Q = B.content thy.now in IsTheoryContent Q → IsDerivable Q ab.now → IsDerivable Q ba.now → IfOk result (IsDerivable Q) }
{
    let Some((left, right)) = as_implication(&ab.prop) else {
        return Err(RuleFault::NotImplies);
    };
    let Some((premise, conclusion)) = as_implication(&ba.prop) else {
        return Err(RuleFault::NotImplies);
    };
    if !are_same(right, premise) {
        return Err(RuleFault::Mismatched);
    }
    if !are_same(left, conclusion) {
        return Err(RuleFault::Mismatched);
    }
    from_two(
        alloc,
        ab,
        ba,
        equation_of(alloc, &prop_typ(alloc), left, right)?,
    )
}

/// From `A == B` and A: B.
///
///      H |- A == B    K |- A
///     -----------------------
///            H, K |- B
pub fn equal_elim<B: Base>(alloc: Global, thy: &B, eq: &Thm, th: &Thm) -> Result<Thm, RuleFault>
    ensures answer { IsAnswer (GivesEqualElim eq.now th.now) (RefusesEqualElim eq.now th.now) result }
    ensures derivable { let Q = B.content thy.now in IsTheoryContent Q → IsDerivable Q eq.now → IsDerivable Q th.now → IfOk result (IsDerivable Q) }
{
    let Some((_, left, right)) = as_equation(&eq.prop) else {
        return Err(RuleFault::NotEquality);
    };
    if !are_same(left, &th.prop) {
        return Err(RuleFault::PremiseDiffers);
    }
    from_two(alloc, eq, th, right.copy(alloc)?)
}

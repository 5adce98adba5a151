//! Equality as an equivalence.
ghost use Rattle.std.specs.Prelude.{◌≡◌, IfOk};
ghost use Rattle.pure_definitions.specs.Declarations.Certified.{IsCertified};
ghost use Rattle.pure_logic.specs.Connectives.{eq};
ghost use Rattle.pure_logic.specs.Derivable.{IsDerivable};
ghost use Rattle.pure_theorem.specs.Facts.{IsTheoryContent};
ghost use Rattle.pure_theorem.specs.Answer.{IsAnswer, NoRefusal};
ghost use Rattle.pure_theorem.specs.Shapes.{IsTyped};
ghost use Rattle.pure_equal.specs.Equivalence.{GivesReflexive, GivesSymmetric, RefusesNoEquation, GivesTransitive, RefusesTransitive};

use pure_term::{Term, Typ};
use pure_theorem::{
    Base, RuleFault, Thm, alone, are_same, as_equation, equation, from_one, from_two, typ_of_typed,
};
use std::alloc::{AllocError, Global};

/// `t == u`, of copies.
pub fn equation_of(alloc: Global, typ: &Typ, left: &Term, right: &Term) -> Result<Term, AllocError>
    ensures { IfOk result (λ t. t ≡ eq typ.now left.now right.now) }
{
    equation(alloc, typ, left.copy(alloc)?, right.copy(alloc)?)
}

/// `t == t`
///
///     -----------
///      |- t == t
pub fn reflexive<B: Base>(alloc: Global, thy: &B, t: &Term) -> Result<Thm, RuleFault>
    requires { IsTyped t.now }
    ensures answer { IsAnswer (GivesReflexive t.now) NoRefusal result }
    ensures derivable { let Q = B.content thy.now in IsTheoryContent Q → IsCertified Q.declarations t.now → IfOk result (IsDerivable Q) }
{
    let typ = typ_of_typed(alloc, t)?;
    alone(alloc, Ok(equation_of(alloc, &typ, t, t)?))
}

/// From `t == u`: `u == t`.
///
///      H |- t == u
///     -------------
///      H |- u == t
pub fn symmetric<B: Base>(alloc: Global, thy: &B, th: &Thm) -> Result<Thm, RuleFault>
    ensures answer { IsAnswer (GivesSymmetric th.now) (RefusesNoEquation th.now) result }
    ensures derivable { let Q = B.content thy.now in IsTheoryContent Q → IsDerivable Q th.now → IfOk result (IsDerivable Q) }
{
    let Some((typ, left, right)) = as_equation(&th.prop) else {
        return Err(RuleFault::NotEquality);
    };
    from_one(alloc, th, Ok(equation_of(alloc, typ, right, left)?))
}

/// From `t == u` and `u == v`: `t == v`.
///
///      H |- t == u    K |- u == v
///     ----------------------------
///            H, K |- t == v
pub fn transitive<B: Base>(alloc: Global, thy: &B, a: &Thm, b: &Thm) -> Result<Thm, RuleFault>
    ensures answer { IsAnswer (GivesTransitive a.now b.now) (RefusesTransitive a.now b.now) result }
    ensures derivable { let Q = B.content thy.now in IsTheoryContent Q → IsDerivable Q a.now → IsDerivable Q b.now → IfOk result (IsDerivable Q) }
{
    let Some((typ, first, middle)) = as_equation(&a.prop) else {
        return Err(RuleFault::NotEquality);
    };
    let Some((_, other, last)) = as_equation(&b.prop) else {
        return Err(RuleFault::NotEquality);
    };
    if !are_same(middle, other) {
        return Err(RuleFault::MiddleDiffers);
    }
    from_two(alloc, a, b, equation_of(alloc, typ, first, last)?)
}

//! Conversions that leave a term, chain, and go under a node.
ghost use Rattle.std.specs.Prelude.{IfOk};
ghost use Rattle.pure_definitions.specs.Terms.Bounds.{IsClosed};
ghost use Rattle.pure_definitions.specs.Terms.Conditions.{IsVariable};
ghost use Rattle.pure_definitions.specs.Declarations.Certified.{IsCertified};
ghost use Rattle.pure_logic.specs.Derivable.{IsDerivable};
ghost use Rattle.pure_theorem.specs.Facts.{IsTheoryContent};
ghost use Rattle.pure_theorem.specs.Answer.{NoRefusal};
ghost use Rattle.pure_theorem.specs.Shapes.{IsTyped};
ghost use Rattle.pure_equal.specs.Equivalence.{GivesReflexive, GivesTransitive, RefusesTransitive};
ghost use Rattle.pure_equal.specs.Congruence.{GivesCombination, RefusesCombination, GivesAbstraction, RefusesAbstraction};
ghost use Rattle.pure_conv.specs.Answer.{IsConvAnswer, AsInference};

use crate::fault::{ConvFault, conv_answer};
use pure_equal::{abstraction, combination, reflexive, transitive};
use pure_term::Term;
use pure_theorem::{Base, Thm};
use std::alloc::Global;

/// The conversion that leaves the term.
///
///     -----------
///      |- t == t
pub fn all_conv<B: Base>(alloc: Global, thy: &B, t: &Term) -> Result<Thm, ConvFault>
    requires { IsTyped t.now }
    ensures answer { IsConvAnswer (GivesReflexive t.now) (AsInference NoRefusal) result }
    ensures derivable { let Q = B.content thy.now in IsTheoryContent Q → IsCertified Q.declarations t.now → IfOk result (IsDerivable Q) }
{
    conv_answer(reflexive(alloc, thy, t))
}

/// One conversion after another.
///
///      H |- t == u    K |- u == v
///     ----------------------------
///            H, K |- t == v
pub fn then_conv<B: Base>(alloc: Global, thy: &B, a: &Thm, b: &Thm) -> Result<Thm, ConvFault>
    ensures answer { IsConvAnswer (GivesTransitive a.now b.now) (AsInference (RefusesTransitive a.now b.now)) result }
    ensures derivable { let Q = B.content thy.now in IsTheoryContent Q → IsDerivable Q a.now → IsDerivable Q b.now → IfOk result (IsDerivable Q) }
{
    conv_answer(transitive(alloc, thy, a, b))
}

/// A conversion of a function and one of its argument.
///
///      H |- f == g    K |- x == y
///     ---------------------------- f and g functions on the type of x and y
///           H, K |- f x == g y
pub fn comb_conv<B: Base>(alloc: Global, thy: &B, f: &Thm, x: &Thm) -> Result<Thm, ConvFault>
    ensures answer { IsConvAnswer (GivesCombination f.now x.now) (AsInference (RefusesCombination f.now x.now)) result }
    ensures derivable { let Q = B.content thy.now in IsTheoryContent Q → IsDerivable Q f.now → IsDerivable Q x.now → IfOk result (IsDerivable Q) }
{
    conv_answer(combination(alloc, thy, f, x))
}

/// A conversion of a body.
///
///          H |- t == u
///     --------------------- x not free in H
///      H |- %x. t == %x. u
pub fn abs_conv<B: Base>(alloc: Global, thy: &B, x: &Term, th: &Thm) -> Result<Thm, ConvFault>
    requires variable { IsVariable x.now }
    requires closed { IsClosed th.now.prop }
    ensures answer { IsConvAnswer (GivesAbstraction x.now th.now) (AsInference (RefusesAbstraction x.now th.now)) result }
    ensures derivable { let Q = B.content thy.now in IsTheoryContent Q → IsCertified Q.declarations x.now → IsDerivable Q th.now → IfOk result (IsDerivable Q) }
{
    conv_answer(abstraction(alloc, thy, x, th))
}

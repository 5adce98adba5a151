//! Equality as a congruence.
ghost use Rattle.std.specs.Prelude.{◌≡◌, IfOk};
ghost use Rattle.pure_definitions.specs.Types.Typ.{arrow};
ghost use Rattle.pure_definitions.specs.Terms.Term as tree;
ghost use Rattle.pure_definitions.specs.Terms.Bounds.{abstract_over, IsClosed};
ghost use Rattle.pure_definitions.specs.Terms.Conditions.{IsVariable, variable_typ};
ghost use Rattle.pure_definitions.specs.Declarations.Certified.{IsCertified};
ghost use Rattle.pure_logic.specs.Connectives.{eq};
ghost use Rattle.pure_logic.specs.Derivable.{IsDerivable};
ghost use Rattle.pure_theorem.specs.Facts.{IsTheoryContent};
ghost use Rattle.pure_theorem.specs.Made.{IsMade};
ghost use Rattle.pure_theorem.specs.Answer.{IsAnswer};
ghost use Rattle.pure_equal.specs.Congruence.{GivesCombination, RefusesCombination, GivesAbstraction, RefusesAbstraction};

use pure_term::{Grow, Term, Typ, abstract_over};
use pure_theorem::{
    Base, RuleFault, Thm, application, as_equation, equation, first_pair_with, first_with,
    from_one, from_two, range_for, typ_of_variable,
};
use std::alloc::{AllocError, Global};

/// `f x`, of copies.
fn application_of(alloc: Global, function: &Term, argument: &Term) -> Result<Term, AllocError>
    ensures { IfOk result (λ t. t ≡ tree.App function.now argument.now) }
{
    application(alloc, function.copy(alloc)?, argument.copy(alloc)?)
}

/// `f x == g y`, at the type of both, of copies.
fn applied(
    alloc: Global,
    typ: &Typ,
    functions: (&Term, &Term),
    arguments: (&Term, &Term),
) -> Result<Term, AllocError>
    ensures { IfOk result (λ t. t ≡ eq typ.now (tree.App functions.entry.0.now arguments.entry.0.now) (tree.App functions.entry.1.now arguments.entry.1.now)) }
{
    let left = application_of(alloc, functions.0, arguments.0)?;
    let right = application_of(alloc, functions.1, arguments.1)?;
    equation(alloc, typ, left, right)
}

/// From `f == g` and `x == y`: `f x == g y`.
///
///      H |- f == g    K |- x == y
///     ---------------------------- f and g functions on the type of x and y
///           H, K |- f x == g y
pub fn combination<B: Base>(alloc: Global, thy: &B, f: &Thm, x: &Thm) -> Result<Thm, RuleFault>
    ensures answer { IsAnswer (GivesCombination f.now x.now) (RefusesCombination f.now x.now) result }
    ensures derivable { let Q = B.content thy.now in IsTheoryContent Q → IsDerivable Q f.now → IsDerivable Q x.now → IfOk result (IsDerivable Q) }
{
    let Some((function_typ, first, second)) = as_equation(&f.prop) else {
        return Err(RuleFault::NotEquality);
    };
    let Some((typ, left, right)) = as_equation(&x.prop) else {
        return Err(RuleFault::NotEquality);
    };
    let Some(range) = range_for(function_typ, typ) else {
        return Err(RuleFault::TypeDiffers);
    };
    let applications = applied(alloc, range, (first, second), (left, right))?;
    from_two(alloc, f, x, applications)
}

/// From `t == u`, with x free in no hypothesis and in no pair: `%x. t == %x. u`.
///
///          H |- t == u
///     --------------------- x not free in H
///      H |- %x. t == %x. u
pub fn abstraction<B: Base>(alloc: Global, thy: &B, x: &Term, th: &Thm) -> Result<Thm, RuleFault>
    requires variable { IsVariable x.now }
    requires closed { IsClosed th.now.prop }
    ensures answer { IsAnswer (GivesAbstraction x.now th.now) (RefusesAbstraction x.now th.now) result }
    ensures derivable { let Q = B.content thy.now in IsTheoryContent Q → IsCertified Q.declarations x.now → IsDerivable Q th.now → IfOk result (IsDerivable Q) }
{
    let Some((typ, left, right)) = as_equation(&th.prop) else {
        return Err(RuleFault::NotEquality);
    };
    if let Some(which) = first_with(x, &th.hyps) {
        return Err(RuleFault::FreeInHyps { which });
    }
    if let Some(which) = first_pair_with(x, &th.pairs) {
        return Err(RuleFault::FreeInPairs { which });
    }
    from_one(alloc, th, abstracted(alloc, x, typ, left, right))
}

/// The type of functions from the type of the variable.
fn functions_from(alloc: Global, x: &Term, range: &Typ) -> Result<Typ, AllocError>
    requires { IsVariable x.now }
    ensures { IfOk result (λ T. T ≡ arrow (variable_typ x.now) range.now) }
{
    let domain = typ_of_variable(x).copy(alloc)?;
    Typ::arrow(alloc, domain, range.copy(alloc)?)
}

/// `%x. t == %x. u`
fn abstracted(alloc: Global, x: &Term, typ: &Typ, left: &Term, right: &Term) -> Result<Term, Grow>
    requires variable { IsVariable x.now }
    requires closed_left { IsClosed left.now }
    requires closed_right { IsClosed right.now }
    ensures { IsMade (eq (arrow (variable_typ x.now) typ.now) (abstract_over left.now x.now) (abstract_over right.now x.now)) result }
{
    let functions = functions_from(alloc, x, typ)?;
    let first = abstract_over(alloc, left, x)?;
    let second = abstract_over(alloc, right, x)?;
    Ok(equation(alloc, &functions, first, second)?)
}

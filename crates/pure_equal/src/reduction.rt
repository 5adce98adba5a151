//! Beta and eta, as equations.
ghost use Rattle.std.specs.Prelude.{◌≡◌, ◌↔◌, IsTrue, IfOk, MatchOption};
ghost use Rattle.pure_definitions.specs.Terms.Term as tree;
ghost use Rattle.pure_definitions.specs.Terms.Bounds.{subst_bound, IsClosed, IsClosedUnder};
ghost use Rattle.pure_definitions.specs.Declarations.Certified.{IsCertified};
ghost use Rattle.pure_logic.specs.Connectives.{eq};
ghost use Rattle.pure_logic.specs.Derivable.{IsDerivable};
ghost use Rattle.pure_theorem.specs.Facts.{IsTheoryContent};
ghost use Rattle.pure_theorem.specs.Made.{IsMade};
ghost use Rattle.pure_theorem.specs.Answer.{IsAnswer};
ghost use Rattle.pure_theorem.specs.Shapes.{IsTyped};
ghost use Rattle.pure_equal.specs.Reduction.{GivesBeta, IsNoRedex, RefusesBeta, GivesEta, RefusesEta, IsRedex, IsNoAbstraction, IsApplied, IsNotApplied};

use crate::equivalence::equation_of;
use pure_term::{Grow, Term, TermNode, Typ, loose_above_of, subst_bound};
use pure_theorem::{Base, RuleFault, Thm, alone, as_application, equation, typ_of_typed};
use std::alloc::{AllocError, Global};

/// The body of an abstraction.
fn as_abstraction(t: &Term) -> Option<(&Typ, &Term)>
    ensures { MatchOption result (IsNoAbstraction t.now) (λ parts. t.now ≡ tree.Abs parts.0.now parts.1.now) }
{
    match &t.node {
        TermNode::Abs { typ, body, .. } => Some((typ, &**body)),
        _ => None,
    }
}

/// The body and the argument of a redex.
fn as_redex(t: &Term) -> Option<(&Term, &Term)>
    ensures { MatchOption result (IsNoRedex t.now) (λ parts. IsRedex t.now parts.0.now parts.1.now) }
{
    let Some((function, argument)) = as_application(t) else {
        return None;
    };
    let Some((_, body)) = as_abstraction(function) else {
        return None;
    };
    Some((body, argument))
}

/// An abstraction applied to an argument is the body with the argument put in.
///
///     --------------------------
///      |- (%x. b[x]) a == b[a]
pub fn beta<B: Base>(alloc: Global, thy: &B, t: &Term) -> Result<Thm, RuleFault>
    requires { IsTyped t.now }
    ensures answer { IsAnswer (GivesBeta t.now) (RefusesBeta t.now) result }
    ensures derivable { let Q = B.content thy.now in IsTheoryContent Q → IsCertified Q.declarations t.now → IfOk result (IsDerivable Q) }
{
    let Some((body, argument)) = as_redex(t) else {
        return Err(RuleFault::NotBeta);
    };
    let typ = typ_of_typed(alloc, t)?;
    alone(alloc, reduced(alloc, &typ, t, body, argument))
}

/// The equation of the term and the body with the argument put in.
fn reduced(alloc: Global, typ: &Typ, t: &Term, body: &Term, argument: &Term) -> Result<Term, Grow>
    requires { IsClosed argument.now }
    ensures { IsMade (eq typ.now t.now (subst_bound body.now argument.now)) result }
{
    let right = subst_bound(alloc, body, argument)?;
    Ok(equation(alloc, typ, t.copy(alloc)?, right)?)
}

/// Whether the term is the innermost bound variable.
fn is_bound_0(t: &Term) -> bool
    ensures { IsTrue result ↔ (t.now ≡ tree.Bound 0) }
{
    match &t.node {
        TermNode::Bound { place } => *place == 0,
        _ => false,
    }
}

/// Whether no bound variable of the term is loose under so many binders.
fn is_closed_under(t: &Term, binders: u32) -> bool
    ensures { IsTrue result ↔ IsClosedUnder binders t.now }
{
    loose_above_of(t) <= u64::from(binders)
}

/// What is applied to the bound variable in an abstraction: of `%x. f x` the f, under the binder.
fn as_applied(t: &Term) -> Option<&Term>
    ensures { MatchOption result (IsNotApplied t.now) (λ f. IsApplied t.now f.now) }
{
    let Some((_, body)) = as_abstraction(t) else {
        return None;
    };
    let Some((function, argument)) = as_application(body) else {
        return None;
    };
    if !is_bound_0(argument) {
        return None;
    }
    Some(function)
}

/// A function is its expansion.
///
///     --------------------- x not in f
///      |- (%x. f x) == f
pub fn eta<B: Base>(alloc: Global, thy: &B, t: &Term) -> Result<Thm, RuleFault>
    requires { IsTyped t.now }
    ensures answer { IsAnswer (GivesEta t.now) (RefusesEta t.now) result }
    ensures derivable { let Q = B.content thy.now in IsTheoryContent Q → IsCertified Q.declarations t.now → IfOk result (IsDerivable Q) }
{
    let Some(function) = as_applied(t) else {
        return Err(RuleFault::NotEta);
    };
    if !is_closed_under(function, 0) {
        return Err(RuleFault::NotEta);
    }
    let typ = typ_of_typed(alloc, t)?;
    alone(alloc, Ok(equation_of(alloc, &typ, t, function)?))
}

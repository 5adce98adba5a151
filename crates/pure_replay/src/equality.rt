//! The axioms of equality.
ghost use Rattle.std.specs.Prelude.{◌≡◌, ◌↔◌, IsTrue, IfOk, MatchOption};
ghost use Rattle.pure_definitions.specs.Types.Typ as types;
ghost use Rattle.pure_definitions.specs.Types.Typ.{arrow, prop};
ghost use Rattle.pure_definitions.specs.Terms.Term as tree;
ghost use Rattle.pure_definitions.specs.Terms.Bounds.{subst_bound, IsClosed};
ghost use Rattle.pure_logic.specs.Connectives.{all, imp, eq};
ghost use Rattle.pure_logic.specs.Concludes.{extensionality};
ghost use Rattle.pure_logic.specs.Content.{IsCertifiedOf};
ghost use Rattle.pure_theorem.specs.Made.{IsMade};
ghost use Rattle.pure_replay.specs.Conclusion.{alone};
ghost use Rattle.pure_replay.specs.Figures.{GivesBeta, GivesRefl, GivesSubst, GivesExt, GivesIff};
ghost use Rattle.pure_replay.specs.Step.{plain_content, IsStep};

use crate::conclusion::{Conclusion, alone, single};
use crate::fault::NodeFault;
use crate::quantification::put;
use crate::tables::{Declared, certified_typ, is_certified_of, is_proposition};
use pure_term::{Grow, Term, TermNode, Typ};
use pure_theorem::{
    all_of, application, are_same_typs, as_application, equation, implication, is_prop, prop_typ,
};
use std::alloc::{AllocError, Global};
use std::sync::Arc;

/// The type and the body of an abstraction.
fn as_abstraction(t: &Term) -> Option<(&Typ, &Term)>
    ensures { MatchOption result ((T : types.Typ) (b : tree.Term) → ¬ (t.now ≡ tree.Abs T b)) (λ parts. t.now ≡ tree.Abs parts.0.now parts.1.now) }
{
    match &t.node {
        TermNode::Abs { typ, body, .. } => Some((typ, &**body)),
        _ => None,
    }
}

/// The body of an abstraction that is applied, and the argument.
fn as_redex(t: &Term) -> Option<(&Term, &Term)>
    ensures { MatchOption result ((T : types.Typ) (b a : tree.Term) → ¬ (t.now ≡ tree.App (tree.Abs T b) a)) (λ parts. (T : types.Typ) × (t.now ≡ tree.App (tree.Abs T parts.0.now) parts.1.now)) }
{
    let Some((function, argument)) = as_application(t) else {
        return None;
    };
    let Some((_, body)) = as_abstraction(function) else {
        return None;
    };
    Some((body, argument))
}

/// The equation of a redex with what it contracts to.
fn contracted(
    alloc: Global,
    range: &Typ,
    redex: &Term,
    body: &Term,
    argument: &Term,
) -> Result<Term, Grow>
    requires { IsClosed argument.now }
    ensures { IsMade (eq range.now redex.now (subst_bound body.now argument.now)) result }
{
    let reduct = put(alloc, body, argument)?;
    Ok(equation(alloc, range, redex.copy(alloc)?, reduct)?)
}

/// Beta.
///
///     --------------------------
///      |- (%x. b[x]) a == b[a]
pub(crate) fn beta(
    alloc: Global,
    declared: &Declared,
    redex: &Term,
) -> Result<Conclusion, NodeFault>
    ensures { IsStep (GivesBeta (plain_content declared.now) redex.now) result }
{
    let Some((body, argument)) = as_redex(redex) else {
        return Err(NodeFault::Wrong);
    };
    match certified_typ(alloc, declared, redex)? {
        None => Err(NodeFault::Wrong),
        Some(range) => single(alloc, contracted(alloc, &range, redex, body, argument)),
    }
}

/// The equation of a term with itself.
fn reflexive(alloc: Global, typ: &Typ, t: &Term) -> Result<Term, AllocError>
    ensures { IfOk result (λ A. A ≡ eq typ.now t.now t.now) }
{
    equation(alloc, typ, t.copy(alloc)?, t.copy(alloc)?)
}

/// Reflexivity.
///
///     -----------
///      |- t == t
pub(crate) fn refl(alloc: Global, declared: &Declared, t: &Term) -> Result<Conclusion, NodeFault>
    ensures { IsStep (GivesRefl (plain_content declared.now) t.now) result }
{
    match certified_typ(alloc, declared, t)? {
        None => Err(NodeFault::Wrong),
        Some(typ) => Ok(alone(alloc, reflexive(alloc, &typ, t)?)),
    }
}

/// Whether the type is that of predicates on the other.
fn is_predicate_typ(typ: &Typ, domain: &Typ) -> bool
    ensures { IsTrue result ↔ (typ.now ≡ arrow domain.now prop) }
{
    let Some((own, range)) = typ.as_arrow() else {
        return false;
    };
    if !are_same_typs(own, domain) {
        return false;
    }
    is_prop(range)
}

/// Whether the term is certified, and a predicate on the type.
fn is_predicate(
    alloc: Global,
    declared: &Declared,
    t: &Term,
    domain: &Typ,
) -> Result<bool, AllocError>
    ensures { IfOk result (λ is. IsTrue is ↔ IsCertifiedOf (plain_content declared.now) t.now (arrow domain.now prop)) }
{
    match certified_typ(alloc, declared, t)? {
        None => Ok(false),
        Some(typ) => Ok(is_predicate_typ(&typ, domain)),
    }
}

/// `x == y ==> A ==> B`
fn replacement(
    alloc: Global,
    typ: &Typ,
    x: &Term,
    y: &Term,
    before: Term,
    after: Term,
) -> Result<Term, AllocError>
    ensures { IfOk result (λ A. A ≡ imp (eq typ.now x.now y.now) (imp before after)) }
{
    let conclusion = implication(alloc, before, after)?;
    let premise = equation(alloc, typ, x.copy(alloc)?, y.copy(alloc)?)?;
    implication(alloc, premise, conclusion)
}

/// `x == y ==> B[x] ==> B[y]`
fn replaced(alloc: Global, typ: &Typ, body: &Term, x: &Term, y: &Term) -> Result<Term, Grow>
    requires left { IsClosed x.now }
    requires right { IsClosed y.now }
    ensures { IsMade (imp (eq typ.now x.now y.now) (imp (subst_bound body.now x.now) (subst_bound body.now y.now))) result }
{
    let before = put(alloc, body, x)?;
    let after = put(alloc, body, y)?;
    Ok(replacement(alloc, typ, x, y, before, after)?)
}

/// Substitution, of an abstraction `%z. B[z]`: x and y are put into its body.
///
///     -------------------------------
///      |- x == y ==> B[x] ==> B[y]
pub(crate) fn subst(
    alloc: Global,
    declared: &Declared,
    abstraction: &Term,
    x: &Term,
    y: &Term,
) -> Result<Conclusion, NodeFault>
    ensures { IsStep (GivesSubst (plain_content declared.now) abstraction.now x.now y.now) result }
{
    let Some((typ, body)) = as_abstraction(abstraction) else {
        return Err(NodeFault::Wrong);
    };
    if !is_predicate(alloc, declared, abstraction, typ)? {
        return Err(NodeFault::Wrong);
    }
    if !is_certified_of(alloc, declared, x, typ)? {
        return Err(NodeFault::Wrong);
    }
    if !is_certified_of(alloc, declared, y, typ)? {
        return Err(NodeFault::Wrong);
    }
    single(alloc, replaced(alloc, typ, body, x, y))
}

/// The function applied to the innermost bound variable.
fn at_bound(alloc: Global, f: &Term) -> Result<Term, AllocError>
    ensures { IfOk result (λ t. t ≡ tree.App f.now (tree.Bound 0)) }
{
    let bound = Term {
        node: TermNode::Bound { place: 0 },
    };
    application(alloc, f.copy(alloc)?, bound)
}

/// `!!x. f x == g x`
fn equal_values(
    alloc: Global,
    domain: &Typ,
    range: &Typ,
    f: &Term,
    g: &Term,
) -> Result<Term, AllocError>
    ensures { IfOk result (λ A. A ≡ all domain.now (eq range.now (tree.App f.now (tree.Bound 0)) (tree.App g.now (tree.Bound 0)))) }
{
    let left = at_bound(alloc, f)?;
    let right = at_bound(alloc, g)?;
    let body = Arc::new(alloc, equation(alloc, range, left, right)?)?;
    let function = Term::abs(domain.copy(alloc)?, body);
    all_of(alloc, domain, function)
}

/// `(!!x. f x == g x) ==> f == g`
fn extensionality(
    alloc: Global,
    typ: &Typ,
    domain: &Typ,
    range: &Typ,
    f: &Term,
    g: &Term,
) -> Result<Term, AllocError>
    ensures { typ.now ≡ arrow domain.now range.now → IfOk result (λ A. A ≡ extensionality domain.now range.now f.now g.now) }
{
    let premise = equal_values(alloc, domain, range, f, g)?;
    let conclusion = equation(alloc, typ, f.copy(alloc)?, g.copy(alloc)?)?;
    implication(alloc, premise, conclusion)
}

/// The same, of functions of which the first has the type.
fn extended(
    alloc: Global,
    declared: &Declared,
    typ: &Typ,
    f: &Term,
    g: &Term,
) -> Result<Conclusion, NodeFault>
    requires { IsCertifiedOf (plain_content declared.now) f.now typ.now }
    ensures { IsStep (GivesExt (plain_content declared.now) f.now g.now) result }
{
    let Some((domain, range)) = typ.as_arrow() else {
        return Err(NodeFault::Wrong);
    };
    if !is_certified_of(alloc, declared, g, typ)? {
        return Err(NodeFault::Wrong);
    }
    let prop = extensionality(alloc, typ, domain, range, f, g)?;
    Ok(alone(alloc, prop))
}

/// Extensionality of functions, for f and g of one type.
///
///     ------------------------------------
///      |- (!!x. f x == g x) ==> f == g
pub(crate) fn ext(
    alloc: Global,
    declared: &Declared,
    f: &Term,
    g: &Term,
) -> Result<Conclusion, NodeFault>
    ensures { IsStep (GivesExt (plain_content declared.now) f.now g.now) result }
{
    match certified_typ(alloc, declared, f)? {
        None => Err(NodeFault::Wrong),
        Some(typ) => extended(alloc, declared, &typ, f, g),
    }
}

/// `A ==> B`, of copies.
fn implies(alloc: Global, a: &Term, b: &Term) -> Result<Term, AllocError>
    ensures { IfOk result (λ t. t ≡ imp a.now b.now) }
{
    implication(alloc, a.copy(alloc)?, b.copy(alloc)?)
}

/// `(A ==> B) ==> (B ==> A) ==> A == B`
fn propositional(alloc: Global, a: &Term, b: &Term) -> Result<Term, AllocError>
    ensures { IfOk result (λ t. t ≡ imp (imp a.now b.now) (imp (imp b.now a.now) (eq prop a.now b.now))) }
{
    let equal = equation(alloc, &prop_typ(alloc), a.copy(alloc)?, b.copy(alloc)?)?;
    let back = implies(alloc, b, a)?;
    let rest = implication(alloc, back, equal)?;
    let forth = implies(alloc, a, b)?;
    implication(alloc, forth, rest)
}

/// Extensionality of propositions.
///
///     ------------------------------------------
///      |- (A ==> B) ==> (B ==> A) ==> A == B
pub(crate) fn iff(
    alloc: Global,
    declared: &Declared,
    a: &Term,
    b: &Term,
) -> Result<Conclusion, NodeFault>
    ensures { IsStep (GivesIff (plain_content declared.now) a.now b.now) result }
{
    if !is_proposition(alloc, declared, a)? {
        return Err(NodeFault::Wrong);
    }
    if !is_proposition(alloc, declared, b)? {
        return Err(NodeFault::Wrong);
    }
    Ok(alone(alloc, propositional(alloc, a, b)?))
}

//! Rewriting by one equation.
ghost use Rattle.std.specs.Prelude.{◌≡◌, IfOk, IfSome, IsTrue};
ghost use Rattle.pure_kernel.specs.Texts.Lists.{Each};
ghost use Rattle.pure_kernel.specs.Definitions.Terms.Conditions.{IsVariable};
ghost use Rattle.pure_kernel.specs.Definitions.Declarations.Certified.{IsCertified};
ghost use Rattle.pure_kernel.specs.Logic.Derivable.{IsDerivable};
ghost use Rattle.pure_rewrite.specs.Rewritten.{IsFrom};

use crate::matching::match_term;
use pure_kernel::{
    Grow, InstFault, MAX_DEPTH, Name, RuleFault, Term, TermBind, TermMap, TermNode, Theory, Thm,
    Typ, TypMap, abstraction, are_same, as_equation, certified_is_typed, combination,
    has_theory_content, instantiate, reflexive, subst_bound, theorem_is_closed,
};
use std::alloc::{AllocError, Global};

/// Whether the theorem is an equation from the term.
fn is_from(th: &Thm, t: &Term) -> bool
    ensures { IsTrue result → IsFrom t.now th.now }
{
    match as_equation(&th.prop) {
        Some((_, left, _)) => are_same(left, t),
        None => false,
    }
}

/// Whether the term is certified.
fn is_certified(thy: &Theory, t: &Term) -> bool
    ensures { IsTrue result → IsCertified thy.now.declarations t.now }
{
    match thy.certify(t) {
        Ok(_typ) => true,
        Err(_) => false,
    }
}

/// Whether the images are certified.
fn are_certified(thy: &Theory, binds: &[TermBind]) -> bool
    ensures { IsTrue result → Each (λ b. IsCertified thy.now.declarations b.image) binds.now }
{
    let Some((first, rest)) = binds.split_first() else {
        return true;
    };
    if !is_certified(thy, &first.image) {
        return false;
    }
    are_certified(thy, rest)
}

/// The rule with terms put in; none where they may not be.
fn instance(
    alloc: Global,
    thy: &Theory,
    rule: &Thm,
    terms: &TermMap,
) -> Result<Option<Thm>, RuleFault>
    requires { IsDerivable thy.now rule.now }
    ensures { IfOk result (λ found. IfSome found (IsDerivable thy.now)) }
{
    if !are_certified(thy, terms.binds()) {
        return Ok(None);
    }
    has_theory_content(thy);
    match instantiate(alloc, thy, &TypMap::empty(alloc), terms, rule) {
        Ok(th) => Ok(Some(th)),
        Err(InstFault::Big) => Err(RuleFault::Big),
        Err(InstFault::Memory) => Err(RuleFault::Memory),
        Err(_) => Ok(None),
    }
}

/// The instance of the rule whose left side is the term, if there is one.
fn whole(alloc: Global, thy: &Theory, rule: &Thm, t: &Term) -> Result<Option<Thm>, RuleFault>
    requires { IsDerivable thy.now rule.now }
    ensures { IfOk result (λ found. IfSome found (IsDerivable thy.now)) }
{
    let Some((_, left, _)) = as_equation(&rule.prop) else {
        return Ok(None);
    };
    let mut terms = TermMap::empty(alloc);
    if !match_term(alloc, left, t, &mut terms)? {
        return Ok(None);
    }
    let found = instance(alloc, thy, rule, &terms)?;
    Ok(found)
}

/// `t == t`
fn same(alloc: Global, thy: &Theory, t: &Term) -> Result<Thm, RuleFault>
    ensures { IfOk result (IsDerivable thy.now) }
{
    has_theory_content(thy);
    certified_is_typed(thy, t);
    let Ok(_typ) = thy.certify(t) else {
        return Err(RuleFault::Mismatched);
    };
    reflexive(alloc, thy, t)
}

/// From `f == g` and `x == y`: `f x == g y`.
fn applied(alloc: Global, thy: &Theory, f: &Thm, x: &Thm) -> Result<Thm, RuleFault>
    requires function { IsDerivable thy.now f.now }
    requires argument { IsDerivable thy.now x.now }
    ensures { IfOk result (IsDerivable thy.now) }
{
    has_theory_content(thy);
    combination(alloc, thy, f, x)
}

/// From `b[x] == c[x]`: `%x. b[x] == %x. c[x]`.
fn bound(alloc: Global, thy: &Theory, x: &Term, th: &Thm) -> Result<Thm, RuleFault>
    requires variable { IsVariable x.now }
    requires body { IsDerivable thy.now th.now }
    ensures { IfOk result (IsDerivable thy.now) }
{
    if !is_certified(thy, x) {
        return Err(RuleFault::Mismatched);
    }
    has_theory_content(thy);
    theorem_is_closed(thy, th);
    abstraction(alloc, thy, x, th)
}

/// The fixed variable of this name and type.
fn variable(alloc: Global, name: Name, typ: &Typ) -> Result<Term, AllocError>
    ensures { IfOk result IsVariable }
{
    let typ = typ.copy(alloc)?;
    Ok(Term {
        node: TermNode::Free { name, typ },
    })
}

/// The body with the variable in place of the bound one.
fn opened(alloc: Global, body: &Term, x: &Term) -> Result<Term, RuleFault>
    requires { IsVariable x.now }
{
    match subst_bound(alloc, body, x) {
        Ok(t) => Ok(t),
        Err(Grow::Big) => Err(RuleFault::Big),
        Err(Grow::Memory) => Err(RuleFault::Memory),
    }
}

/// The equation from the term, as far as so many levels reach; a variable that is fresh below a binder has a name from `fresh` on.
#[cycle(rewriting)]
fn rewritten(
    alloc: Global,
    thy: &Theory,
    rule: &Thm,
    fresh: u32,
    levels: u32,
    t: &Term,
) -> Result<Thm, RuleFault>
    requires { IsDerivable thy.now rule.now }
    ensures { IfOk result (IsDerivable thy.now) }
{
    if levels == 0 {
        return same(alloc, thy, t);
    }
    if let Some(th) = whole(alloc, thy, rule, t)? {
        return Ok(th);
    }
    match &t.node {
        TermNode::App { fun, arg, .. } => {
            let f = rewritten(alloc, thy, rule, fresh, levels - 1, fun)?;
            let x = rewritten(alloc, thy, rule, fresh, levels - 1, arg)?;
            applied(alloc, thy, &f, &x)
        }
        TermNode::Abs { typ, body, .. } => {
            rewritten_body(alloc, thy, rule, fresh, levels - 1, typ, body)
        }
        _ => same(alloc, thy, t),
    }
}

/// The equation from the abstraction of this body.
#[cycle(rewriting)]
fn rewritten_body(
    alloc: Global,
    thy: &Theory,
    rule: &Thm,
    fresh: u32,
    levels: u32,
    typ: &Typ,
    body: &Term,
) -> Result<Thm, RuleFault>
    requires { IsDerivable thy.now rule.now }
    ensures { IfOk result (IsDerivable thy.now) }
{
    let x = variable(alloc, Name(fresh.saturating_add(levels)), typ)?;
    let inner = opened(alloc, body, &x)?;
    let th = rewritten(alloc, thy, rule, fresh, levels, &inner)?;
    bound(alloc, thy, &x, &th)
}

/// What the term becomes where each outermost instance of the rule's left side is replaced by that of its right side, in one
/// pass, as an equation from the term. Below binders stand fixed variables meanwhile, with names of numbers from `fresh` on;
/// these are to stand neither in the term nor in the rule. `Mismatched` where they do, or the term isn't certified.
pub fn rewrite(
    alloc: Global,
    thy: &Theory,
    rule: &Thm,
    fresh: u32,
    t: &Term,
) -> Result<Thm, RuleFault>
    requires { IsDerivable thy.now rule.now }
    ensures from { IfOk result (IsFrom t.now) }
    ensures derivable { IfOk result (IsDerivable thy.now) }
{
    let th = rewritten(alloc, thy, rule, fresh, MAX_DEPTH, t)?;
    if !is_from(&th, t) {
        return Err(RuleFault::Mismatched);
    }
    Ok(th)
}

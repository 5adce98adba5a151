//! Quantification.
ghost use Rattle.std.specs.Prelude.{◌≡◌, ◌↔◌, IsTrue, IfOk, MatchOption};
ghost use Rattle.pure_definitions.specs.Terms.Term as tree;
ghost use Rattle.pure_definitions.specs.Types.Typ as types;
ghost use Rattle.pure_definitions.specs.Terms.Bounds.{abstract_over, subst_bound, IsClosed};
ghost use Rattle.pure_definitions.specs.Terms.Conditions.{IsVariable, variable_typ};
ghost use Rattle.pure_logic.specs.Connectives.{all_of, all};
ghost use Rattle.pure_theorem.specs.Made.{IsMade};
ghost use Rattle.pure_replay.specs.Figures.{GivesAllIntro, GivesAllElim};
ghost use Rattle.pure_replay.specs.Step.{plain_content, IsStep};

use crate::conclusion::{Conclusion, kept};
use crate::fault::NodeFault;
use crate::tables::{Declared, certified_typ, is_certified_of};
use pure_term::{Grow, Term, TermNode, Typ, abstract_over, subst_bound};
use pure_theorem::{all_of, are_same_typs, as_all, first_with, typ_of_variable};
use std::alloc::Global;

/// Whether the term is a fixed or a schematic variable.
fn is_variable(t: &Term) -> bool
    ensures { IsTrue result ↔ IsVariable t.now }
{
    match &t.node {
        TermNode::Free { .. } => true,
        TermNode::Var { .. } => true,
        _ => false,
    }
}

/// `!!x. B`
fn quantified(alloc: Global, x: &Term, body: &Term) -> Result<Term, Grow>
    requires variable { IsVariable x.now }
    requires closed { IsClosed body.now }
    ensures { IsMade (all_of (variable_typ x.now) (abstract_over body.now x.now)) result }
{
    let function = abstract_over(alloc, body, x)?;
    Ok(all_of(alloc, typ_of_variable(x), function)?)
}

/// From B, with x free in no hypothesis: `!!x. B`.
///
///        H |- B
///     ------------- x a variable that isn't free in H
///      H |- !!x. B
pub(crate) fn all_intro(
    alloc: Global,
    declared: &Declared,
    x: &Term,
    above: &Conclusion,
) -> Result<Conclusion, NodeFault>
    requires { IsClosed above.now.prop }
    ensures { IsStep (GivesAllIntro (plain_content declared.now) x.now above.now) result }
{
    if !is_variable(x) {
        return Err(NodeFault::Wrong);
    }
    if !is_certified_of(alloc, declared, x, typ_of_variable(x))? {
        return Err(NodeFault::Wrong);
    }
    if let Some(_) = first_with(x, &above.hyps) {
        return Err(NodeFault::Wrong);
    }
    kept(alloc, above, quantified(alloc, x, &above.prop))
}

/// The variable's type and the body of a quantification; none exactly where the term isn't one.
fn as_quantification(t: &Term) -> Option<(&Typ, &Term)>
    ensures { MatchOption result ((T : types.Typ) (B : tree.Term) → ¬ (t.now ≡ all T B)) (λ parts. t.now ≡ all parts.0.now parts.1.now) }
{
    let Some((typ, function)) = as_all(t) else {
        return None;
    };
    let TermNode::Abs { typ: own, body, .. } = &function.node else {
        return None;
    };
    if !are_same_typs(own, typ) {
        return None;
    }
    Some((typ, &**body))
}

/// The body with the closed term put in.
pub(crate) fn put(alloc: Global, body: &Term, t: &Term) -> Result<Term, Grow>
    requires { IsClosed t.now }
    ensures { IsMade (subst_bound body.now t.now) result }
{
    subst_bound(alloc, body, t)
}

/// From `!!x. B[x]`: `B[t]`, for a term t of the type of x.
///
///      H |- !!x. B[x]
///     ---------------- t of the type of x
///        H |- B[t]
pub(crate) fn all_elim(
    alloc: Global,
    declared: &Declared,
    t: &Term,
    above: &Conclusion,
) -> Result<Conclusion, NodeFault>
    ensures { IsStep (GivesAllElim (plain_content declared.now) t.now above.now) result }
{
    let Some((typ, body)) = as_quantification(&above.prop) else {
        return Err(NodeFault::Wrong);
    };
    if !is_certified_of(alloc, declared, t, typ)? {
        return Err(NodeFault::Wrong);
    }
    kept(alloc, above, put(alloc, body, t))
}

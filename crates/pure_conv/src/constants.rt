//! Conversions of the constants of a term.
ghost use Rattle.std.specs.Prelude.{◌≡◌, [], ◌++◌, IfOk, IfSome, MatchOption, MatchResult};
ghost use Rattle.pure_definitions.specs.Types.Typ as typ_tree;
ghost use Rattle.pure_definitions.specs.Terms.Term as tree;
ghost use Rattle.pure_definitions.specs.Declarations.Certified.{IsCertified};
ghost use Rattle.pure_logic.specs.Connectives.{eq};
ghost use Rattle.pure_logic.specs.Derivable.{IsDerivable};
ghost use Rattle.pure_theorem.specs.Facts.{IsTheoryContent};
ghost use Rattle.pure_theorem.specs.Sets.{label_cmp, IsSetOf, IsLabelSet};
ghost use Rattle.pure_theorem.specs.Shapes.{IsTyped, IsNoEquation};
ghost use Rattle.pure_conv.specs.Bottom.{ReturnsAt, IsRightSide, IsConstant, AreEquations, IsConverted, AreDerivable, IsRefused, IsEquated, IsBottomAnswer};

use crate::fault::ConvFault;
use pure_term::{Label, Term, TermNode, Typ, copied};
use pure_theorem::{Base, Thm, as_equation, equation, typ_of_typed, united_labels};
use std::alloc::{AllocError, Global};
use std::sync::Arc;

/// What a term becomes, and the promises on which the equation rests.
#[derive(Drop)]
struct Becoming {
    term: Arc<Term>,
    rests: Vec<Label>,
}

/// The set of no labels.
fn no_labels(alloc: Global) -> Vec<Label>
    ensures items { result.items ≡ [] }
    ensures set { IsLabelSet result.items }
{
    Vec::new(alloc)
}

/// The term as it is.
fn kept(alloc: Global, t: &Arc<Term>) -> Result<Becoming, AllocError>
    ensures term { IfOk result (λ made. made.term.value ≡ t.now.value) }
    ensures rests { IfOk result (λ made. made.rests.items ≡ []) }
    ensures set { IfOk result (λ made. IsLabelSet made.rests.items) }
{
    let term = Arc::try_clone(t)?;
    let rests = no_labels(alloc);
    Ok(Becoming { term, rests })
}

/// The right side of an equation.
fn right_of(prop: &Term) -> Option<&Term>
    ensures { MatchOption result (IsNoEquation prop.now) (λ u. (T : typ_tree.Typ) × (left : tree.Term) × (prop.now ≡ eq T left u.now)) }
{
    let Some((_, _, right)) = as_equation(prop) else {
        return None;
    };
    Some(right)
}

/// The right side of the equation, with its promises; none where the theorem is no equation.
fn right_side(alloc: Global, th: &Thm) -> Result<Option<Becoming>, AllocError>
    ensures side { IfOk result (λ found. MatchOption found (IsNoEquation th.now.prop) (λ made. IsRightSide th.now made.term.value made.rests.items)) }
    ensures set { IfOk result (λ found. IfSome found (λ made. IsLabelSet made.rests.items)) }
{
    let Some(right) = right_of(&th.prop) else {
        return Ok(None);
    };
    let term = copied(alloc, right)?;
    let rests = Vec::from_slice(alloc, &th.rests)?;
    Ok(Some(Becoming { term, rests }))
}

/// What the function answers for the constant.
fn asked<B: Base, F: Fn(&B, &Term) -> Result<Option<Thm>, ConvFault>>(
    alloc: Global,
    thy: &B,
    f: &F,
    t: &Arc<Term>,
) -> Result<Becoming, ConvFault>
    requires callable { F.IsAlwaysCallable f.now }
    requires constant { IsConstant t.now.value }
    requires equations { AreEquations (ReturnsAt F.Fn f.now thy.now) }
    ensures becomes { MatchResult result (λ made. IsConverted (ReturnsAt F.Fn f.now thy.now) t.now.value made.term.value made.rests.items) (IsRefused (ReturnsAt F.Fn f.now thy.now) t.now.value) }
    ensures set { IfOk result (λ made. IsLabelSet made.rests.items) }
{
    let whole: &Term = t;
    let found = match f(thy, whole) {
        Ok(found) => found,
        Err(fault) => return Err(fault),
    };
    let Some(th) = found else {
        return Ok(kept(alloc, t)?);
    };
    match right_side(alloc, &th)? {
        Some(made) => Ok(made),
        None => unreachable!(),
    }
}

/// The abstraction of what the body becomes.
fn under(alloc: Global, typ: &Typ, inside: Becoming) -> Result<Becoming, AllocError>
    ensures term { IfOk result (λ made. made.term.value ≡ tree.Abs typ.now inside.term.value) }
    ensures rests { IfOk result (λ made. made.rests.items ≡ inside.rests.items) }
{
    let typ = typ.copy(alloc)?;
    let Becoming { term: body, rests } = inside;
    let term = Arc::new(alloc, Term::abs(typ, body))?;
    Ok(Becoming { term, rests })
}

/// The application of what the function becomes to what the argument becomes.
fn joined(alloc: Global, first: Becoming, second: Becoming) -> Result<Becoming, AllocError>
    requires first_set { IsLabelSet first.rests.items }
    requires second_set { IsLabelSet second.rests.items }
    ensures term { IfOk result (λ made. made.term.value ≡ tree.App first.term.value second.term.value) }
    ensures rests { IfOk result (λ made. IsSetOf label_cmp (first.rests.items ++ second.rests.items) made.rests.items) }
{
    let rests = united_labels(alloc, &first.rests, &second.rests)?;
    let term = Arc::new(alloc, Term::app(first.term, second.term))?;
    Ok(Becoming { term, rests })
}

/// What the term becomes by the function's answers for its constants, each asked once, in preorder. Leaves that stay are handed back.
fn converted<B: Base, F: Fn(&B, &Term) -> Result<Option<Thm>, ConvFault>>(
    alloc: Global,
    thy: &B,
    f: &F,
    t: &Arc<Term>,
) -> Result<Becoming, ConvFault>
    requires callable { F.IsAlwaysCallable f.now }
    requires equations { AreEquations (ReturnsAt F.Fn f.now thy.now) }
    ensures becomes { MatchResult result (λ made. IsConverted (ReturnsAt F.Fn f.now thy.now) t.now.value made.term.value made.rests.items) (IsRefused (ReturnsAt F.Fn f.now thy.now) t.now.value) }
    ensures set { IfOk result (λ made. IsLabelSet made.rests.items) }
{
    let whole: &Term = t;
    match &whole.node {
        TermNode::Const { .. } => asked(alloc, thy, f, t),
        TermNode::Free { .. } => Ok(kept(alloc, t)?),
        TermNode::Var { .. } => Ok(kept(alloc, t)?),
        TermNode::Bound { .. } => Ok(kept(alloc, t)?),
        TermNode::Abs { typ, body, .. } => {
            let inside = converted(alloc, thy, f, body)?;
            Ok(under(alloc, typ, inside)?)
        }
        TermNode::App { fun, arg, .. } => {
            let first = converted(alloc, thy, f, fun)?;
            let second = converted(alloc, thy, f, arg)?;
            Ok(joined(alloc, first, second)?)
        }
    }
}

/// The equation of the term and what it becomes.
fn theorem(alloc: Global, typ: &Typ, t: &Term, made: Becoming) -> Result<Thm, AllocError>
    requires { IsLabelSet made.rests.items }
    ensures { IfOk result (λ th. th ≡ record { hyps = []; pairs = []; prop = eq typ.now t.now made.term.value; rests = made.rests.items }) }
{
    let left = t.copy(alloc)?;
    let Becoming { term, rests } = made;
    let prop = equation(alloc, typ, left, term.copy(alloc)?)?;
    Ok(Thm {
        hyps: Vec::new(alloc),
        pairs: Vec::new(alloc),
        prop,
        rests,
    })
}

/// The equation of the term and what it becomes, within the limits.
fn concluded(alloc: Global, t: &Term, made: Becoming) -> Result<Thm, ConvFault>
    requires set { IsLabelSet made.rests.items }
    requires typed { IsTyped t.now }
    ensures { IsEquated t.now made.term.value made.rests.items result }
{
    let typ = typ_of_typed(alloc, t)?;
    let th = theorem(alloc, &typ, t, made)?;
    if th.is_within() {
        Ok(th)
    } else {
        Err(ConvFault::Big)
    }
}

/// The conversion that asks a function of each constant of the term, in preorder, and replaces the constant where the function gives an equation from it. The first fault that the function answers is the answer; otherwise it is `Big` where the equation isn't within the limits.
pub fn bottom<B: Base, F: Fn(&B, &Term) -> Result<Option<Thm>, ConvFault>>(
    alloc: Global,
    thy: &B,
    f: &F,
    t: &Term,
) -> Result<Thm, ConvFault>
    requires callable { F.IsAlwaysCallable f.now }
    requires typed { IsTyped t.now }
    requires equations { AreEquations (ReturnsAt F.Fn f.now thy.now) }
    ensures answer { IsBottomAnswer (ReturnsAt F.Fn f.now thy.now) t.now result }
    ensures derivable { let Q = B.content thy.now in IsTheoryContent Q → AreDerivable Q (ReturnsAt F.Fn f.now thy.now) → IsCertified Q.declarations t.now → IfOk result (IsDerivable Q) }
{
    let whole = copied(alloc, t)?;
    match converted(alloc, thy, f, &whole) {
        Ok(made) => concluded(alloc, t, made),
        Err(fault) => Err(fault),
    }
}

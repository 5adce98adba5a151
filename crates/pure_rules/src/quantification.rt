//! Quantification.
ghost use Rattle.std.specs.Prelude.{◌≡◌, [], IfOk};
ghost use Rattle.pure_definitions.specs.Terms.Bounds.{abstract_over, IsClosed};
ghost use Rattle.pure_definitions.specs.Terms.Conditions.{IsVariable, variable_typ};
ghost use Rattle.pure_definitions.specs.Declarations.Certified.{IsCertified};
ghost use Rattle.pure_logic.specs.Connectives.{all_of};
ghost use Rattle.pure_logic.specs.Derivable.{IsDerivable};
ghost use Rattle.pure_logic.specs.Laws.Quantification.{beta_applied};
ghost use Rattle.pure_theorem.specs.Facts.{IsTheoryContent};
ghost use Rattle.pure_theorem.specs.Made.{IsMade};
ghost use Rattle.pure_theorem.specs.Answer.{IsAnswer};
ghost use Rattle.pure_rules.specs.Quantification.{GivesAllIntro, RefusesAllIntro, GivesAllElim, RefusesAllElim};

use pure_term::{Grow, Term, TermNode, abstract_over, subst_bound};
use pure_theorem::{
    Base, RuleFault, Thm, all_of, application, as_all, first_pair_with, first_with, from_one,
    has_typ, typ_of_variable,
};
use std::alloc::Global;

/// From B, with x free in no hypothesis and in no pair: `!!x. B`.
///
///        H |- B
///     ------------- x not free in H
///      H |- !!x. B
pub fn all_intro<B: Base>(alloc: Global, thy: &B, x: &Term, th: &Thm) -> Result<Thm, RuleFault>
    requires variable { IsVariable x.now }
    requires closed { IsClosed th.now.prop }
    ensures answer { IsAnswer (GivesAllIntro x.now th.now) (RefusesAllIntro x.now th.now) result }
    ensures derivable { let Q = B.content thy.now in IsTheoryContent Q → IsCertified Q.declarations x.now → IsDerivable Q th.now → IfOk result (IsDerivable Q) }
{
    if let Some(which) = first_with(x, &th.hyps) {
        return Err(RuleFault::FreeInHyps { which });
    }
    if let Some(which) = first_pair_with(x, &th.pairs) {
        return Err(RuleFault::FreeInPairs { which });
    }
    from_one(alloc, th, quantified(alloc, x, &th.prop))
}

/// `!!x. B`
fn quantified(alloc: Global, x: &Term, body: &Term) -> Result<Term, Grow>
    requires variable { IsVariable x.now }
    requires closed { IsClosed body.now }
    ensures { IsMade (all_of (variable_typ x.now) (abstract_over body.now x.now)) result }
{
    let function = abstract_over(alloc, body, x)?;
    Ok(all_of(alloc, typ_of_variable(x), function)?)
}

/// From `!!x. B[x]`: `B[t]`, for a term t of the type of x.
///
///      H |- !!x. B[x]
///     ---------------- t of the type of x
///        H |- B[t]
pub fn all_elim<B: Base>(alloc: Global, thy: &B, t: &Term, th: &Thm) -> Result<Thm, RuleFault>
    ensures answer { IsAnswer (GivesAllElim t.now th.now) (RefusesAllElim t.now th.now) result }
    ensures derivable { let Q = B.content thy.now in IsTheoryContent Q → IsCertified Q.declarations t.now → IsDerivable Q th.now → IfOk result (IsDerivable Q) }
{
    let Some((typ, function)) = as_all(&th.prop) else {
        return Err(RuleFault::NotAll);
    };
    if !has_typ(alloc, t, typ)? {
        return Err(RuleFault::TypeDiffers);
    }
    from_one(alloc, th, applied(alloc, function, t))
}

/// The function applied to the term: where it is an abstraction, its body with the term put in.
fn applied(alloc: Global, function: &Term, t: &Term) -> Result<Term, Grow>
    requires { IsClosed t.now }
    ensures { IsMade (beta_applied function.now t.now) result }
{
    match &function.node {
        TermNode::Abs { body, .. } => subst_bound(alloc, body, t),
        _ => Ok(application(alloc, function.copy(alloc)?, t.copy(alloc)?)?),
    }
}

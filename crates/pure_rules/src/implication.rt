//! Assumption and implication.
ghost use Rattle.std.specs.Prelude.{◌≡◌, [], ◌∷◌, IfOk};
ghost use Rattle.pure_definitions.specs.Declarations.Certified.{IsCertified};
ghost use Rattle.pure_logic.specs.Connectives.{imp};
ghost use Rattle.pure_logic.specs.Derivable.{IsDerivable};
ghost use Rattle.pure_logic.specs.Tree.{without};
ghost use Rattle.pure_theorem.specs.Facts.{IsTheoryContent};
ghost use Rattle.pure_theorem.specs.Answer.{IsAnswer};
ghost use Rattle.pure_rules.specs.Implication.{GivesAssume, RefusesNoProposition, GivesImpliesIntro, GivesImpliesElim, RefusesImpliesElim};

use pure_term::Term;
use pure_theorem::{
    Base, RuleFault, Thm, are_same, as_implication, copied_pairs, from_two, has_typ, implication,
    prop_typ, within_limits, without,
};
use std::alloc::{AllocError, Global};

/// The proposition from itself.
///
///     -------- A of type prop
///      A |- A
pub fn assume<B: Base>(alloc: Global, thy: &B, a: &Term) -> Result<Thm, RuleFault>
    ensures answer { IsAnswer (GivesAssume a.now) (RefusesNoProposition a.now) result }
    ensures derivable { IsCertified (B.content thy.now).declarations a.now → IfOk result (IsDerivable (B.content thy.now)) }
{
    if !has_typ(alloc, a, &prop_typ(alloc))? {
        return Err(RuleFault::NotProp);
    }
    within_limits(assumption(alloc, a)?)
}

/// The theorem of a proposition from itself.
fn assumption(alloc: Global, a: &Term) -> Result<Thm, AllocError>
    ensures { IfOk result (λ th. th ≡ record { hyps = a.now ∷ []; pairs = []; prop = a.now; rests = [] }) }
{
    let mut hyps = Vec::new(alloc);
    hyps.push(a.copy(alloc)?)?;
    let pairs = Vec::new(alloc);
    let prop = a.copy(alloc)?;
    let rests = Vec::new(alloc);
    Ok(Thm {
        hyps,
        pairs,
        prop,
        rests,
    })
}

/// From B, with A among the hypotheses or not, `A ==> B` without it.
///
///           H |- B
///     ------------------ A of type prop
///      H - A |- A ==> B
pub fn implies_intro<B: Base>(alloc: Global, thy: &B, a: &Term, th: &Thm) -> Result<Thm, RuleFault>
    ensures answer { IsAnswer (GivesImpliesIntro a.now th.now) (RefusesNoProposition a.now) result }
    ensures derivable { let Q = B.content thy.now in IsTheoryContent Q → IsCertified Q.declarations a.now → IsDerivable Q th.now → IfOk result (IsDerivable Q) }
{
    if !has_typ(alloc, a, &prop_typ(alloc))? {
        return Err(RuleFault::NotProp);
    }
    within_limits(discharged(alloc, a, th)?)
}

/// The theorem with the hypothesis discharged.
fn discharged(alloc: Global, a: &Term, th: &Thm) -> Result<Thm, AllocError>
    ensures { IfOk result (λ new. new ≡ record th.now { hyps = without a.now th.now.hyps; prop = imp a.now th.now.prop }) }
{
    let hyps = without(alloc, a, &th.hyps)?;
    let pairs = copied_pairs(alloc, &th.pairs)?;
    let prop = implication(alloc, a.copy(alloc)?, th.prop.copy(alloc)?)?;
    let rests = Vec::from_slice(alloc, &th.rests)?;
    Ok(Thm {
        hyps,
        pairs,
        prop,
        rests,
    })
}

/// From `A ==> B` and A: B.
///
///      H |- A ==> B    K |- A
///     ------------------------
///           H, K |- B
pub fn implies_elim<B: Base>(
    alloc: Global,
    thy: &B,
    imp: &Thm,
    prem: &Thm,
) -> Result<Thm, RuleFault>
    ensures answer { IsAnswer (GivesImpliesElim imp.now prem.now) (RefusesImpliesElim imp.now prem.now) result }
    ensures derivable { let Q = B.content thy.now in IsTheoryContent Q → IsDerivable Q imp.now → IsDerivable Q prem.now → IfOk result (IsDerivable Q) }
{
    let Some((premise, conclusion)) = as_implication(&imp.prop) else {
        return Err(RuleFault::NotImplies);
    };
    if !are_same(premise, &prem.prop) {
        return Err(RuleFault::PremiseDiffers);
    }
    from_two(alloc, imp, prem, conclusion.copy(alloc)?)
}

//! Assumption and implication.
ghost use Rattle.std.specs.Prelude.{◌≡◌, ◌↔◌, IsTrue, IfOk};
ghost use Rattle.pure_definitions.specs.Terms.Term as tree;
ghost use Rattle.pure_logic.specs.Connectives.{imp};
ghost use Rattle.pure_logic.specs.Tree.{without};
ghost use Rattle.pure_replay.specs.Figures.{GivesAssume, GivesImpliesIntro, GivesImpliesElim};
ghost use Rattle.pure_replay.specs.Step.{plain_content, IsStep};

use crate::conclusion::{Conclusion, from_itself};
use crate::fault::NodeFault;
use crate::tables::{Declared, is_proposition};
use pure_term::Term;
use pure_theorem::{are_same, as_implication, implication, united_terms, without};
use std::alloc::{AllocError, Global};

/// The proposition from itself.
///
///     ------- A of type prop
///      A |- A
pub(crate) fn assume(alloc: Global, declared: &Declared, a: &Term) -> Result<Conclusion, NodeFault>
    ensures { IsStep (GivesAssume (plain_content declared.now) a.now) result }
{
    if !is_proposition(alloc, declared, a)? {
        return Err(NodeFault::Wrong);
    }
    Ok(from_itself(alloc, a)?)
}

/// The implication, with its premise discharged.
fn discharged(alloc: Global, a: &Term, above: &Conclusion) -> Result<Conclusion, AllocError>
    ensures { IfOk result (λ c. c ≡ record { hyps = without a.now above.now.hyps; prop = imp a.now above.now.prop }) }
{
    let hyps = without(alloc, a, &above.hyps)?;
    let prop = implication(alloc, a.copy(alloc)?, above.prop.copy(alloc)?)?;
    Ok(Conclusion { hyps, prop })
}

/// From B, with A among the hypotheses or not, `A ==> B` without it.
///
///           H |- B
///     ------------------ A of type prop
///      H - A |- A ==> B
pub(crate) fn implies_intro(
    alloc: Global,
    declared: &Declared,
    a: &Term,
    above: &Conclusion,
) -> Result<Conclusion, NodeFault>
    ensures { IsStep (GivesImpliesIntro (plain_content declared.now) a.now above.now) result }
{
    if !is_proposition(alloc, declared, a)? {
        return Err(NodeFault::Wrong);
    }
    Ok(discharged(alloc, a, above)?)
}

/// The term, from the hypotheses of both.
fn joined(
    alloc: Global,
    implication: &Conclusion,
    premise: &Conclusion,
    prop: &Term,
) -> Result<Conclusion, AllocError>
    ensures { IfOk result (λ c. implication.now.prop ≡ imp premise.now.prop prop.now → GivesImpliesElim implication.now premise.now c) }
{
    let hyps = united_terms(alloc, &implication.hyps, &premise.hyps)?;
    let prop = prop.copy(alloc)?;
    Ok(Conclusion { hyps, prop })
}

/// Whether the terms are equal, which may be known.
fn is_premise(first: &Term, prop: &Term, is_known: bool) -> bool
    requires { IsTrue is_known → first.now ≡ prop.now }
    ensures { IsTrue result ↔ (first.now ≡ prop.now) }
{
    is_known || are_same(first, prop)
}

/// From `A ==> C` and A: C. Whether the premise is A may be known.
///
///      H |- A ==> C    K |- A
///     ------------------------
///           H, K |- C
pub(crate) fn implies_elim(
    alloc: Global,
    implication: &Conclusion,
    premise: &Conclusion,
    is_known: bool,
) -> Result<Conclusion, NodeFault>
    requires { IsTrue is_known → (A C : tree.Term) → implication.now.prop ≡ imp A C → A ≡ premise.now.prop }
    ensures { IsStep (GivesImpliesElim implication.now premise.now) result }
{
    let Some((first, conclusion)) = as_implication(&implication.prop) else {
        return Err(NodeFault::Wrong);
    };
    if !is_premise(first, &premise.prop, is_known) {
        return Err(NodeFault::Wrong);
    }
    Ok(joined(alloc, implication, premise, conclusion)?)
}

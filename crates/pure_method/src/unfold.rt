//! Definitions unfolded in a goal's first subgoal.
ghost use Rattle.std.specs.Prelude.{◌≡◌, ◌++◌, [], IfOk};
ghost use Rattle.pure_text.specs.Lists.{Each};
ghost use Rattle.pure_definitions.specs.Types.Typ.{prop};
ghost use Rattle.pure_definitions.specs.Terms.Term as tree;
ghost use Rattle.pure_definitions.specs.Declarations.Decl.{algebra_of};
ghost use Rattle.pure_logic.specs.Connectives.{eq};
ghost use Rattle.pure_logic.specs.Content.{IsProposition};
ghost use Rattle.pure_theorem.specs.Sets.{label_cmp, IsSetOf};
ghost use Rattle.pure_conv.specs.Answer.{conv_answer};
ghost use Rattle.pure_unify_laws.specs.Condition.{IsUnifyContent};
ghost use Rattle.pure_resolve.specs.Goals.{IsStep};
ghost use Rattle.pure_resolve.specs.Uses.{MayStep, IsFirstSubgoal};
ghost use Rattle.pure_method.specs.Facts as facts;
ghost use Rattle.pure_method.specs.Unfolding.{UnfoldStep, all_rests};
ghost use Rattle.pure_method.specs.Taking as taking;
ghost use Rattle.pure_method.specs.Taking.{IsReadyFact, IsChained, IsChain, IsLinked, IsJoin, IsTaken, AreTaken};

use crate::fact::discard;
use pure_conv::{ConvFault, unfold};
use pure_declare::theory::Theory;
use pure_resolve::Goal;
use pure_resolve::goal_steps::StepFault;
use pure_term::Term;
use pure_theorem::{RuleFault, Thm, as_equation, as_implication, equation, from_two, prop_typ};
use std::alloc::{AllocError, Global};

/// The fault of a step that a conversion's is.
fn step_fault(fault: ConvFault) -> StepFault
    ensures { result ≡ taking.step_fault fault }
{
    match fault {
        ConvFault::NotDefinition => StepFault::NotDefinition,
        ConvFault::NothingToUnfold => StepFault::NothingToUnfold,
        ConvFault::Big => StepFault::Big,
        _ => StepFault::Memory,
    }
}

/// The answer of a conversion as that of a step.
fn step_answer(answer: Result<Thm, ConvFault>) -> Result<Thm, StepFault>
    ensures { result ≡ taking.step_answer answer }
{
    match answer {
        Ok(th) => Ok(th),
        Err(fault) => Err(step_fault(fault)),
    }
}

/// The equation of the proposition with itself.
fn unchanged(alloc: Global, t: &Term) -> Result<Thm, AllocError>
    ensures { IfOk result (λ th. th ≡ facts.theorem (eq prop t.now t.now) []) }
{
    let left = t.copy(alloc)?;
    let right = t.copy(alloc)?;
    let prop = equation(alloc, &prop_typ(alloc), left, right)?;
    Ok(Thm {
        hyps: Vec::new(alloc),
        pairs: Vec::new(alloc),
        prop,
        rests: Vec::new(alloc),
    })
}

/// The equation of what a proposition has come to, and what it comes to by the fact.
fn unfolded_by(alloc: Global, theory: &Theory, chain: &Thm, fact: &Thm) -> Result<Thm, StepFault>
    requires content { IsUnifyContent theory.now }
    requires chain { IsChain theory.now chain.now }
    requires fact { IsReadyFact theory.now fact.now }
    ensures { (first : tree.Term) → (now : tree.Term) → IsChained theory.now first now chain.now → IsLinked theory.now now fact.now result }
{
    let Some((_, _, now)) = as_equation(&chain.prop) else {
        unreachable!();
    };
    step_answer(unfold(alloc, theory, fact, now))
}

/// The answer of an inference as that of a step.
fn inferred(answer: Result<Thm, RuleFault>) -> Result<Thm, StepFault>
    ensures { result ≡ taking.step_answer (conv_answer answer) }
{
    match answer {
        Ok(th) => Ok(th),
        Err(RuleFault::Big) => Err(StepFault::Big),
        Err(_) => Err(StepFault::Memory),
    }
}

/// The equation that follows from two. What the first comes to is what the second begins with, so they aren't compared.
fn joined(alloc: Global, _theory: &Theory, chain: &Thm, link: &Thm) -> Result<Thm, StepFault>
    requires content { IsUnifyContent _theory.now }
    requires chain { IsChain _theory.now chain.now }
    requires link { IsChain _theory.now link.now }
    ensures { (first : tree.Term) → (now : tree.Term) → (last : tree.Term) → IsChained _theory.now first now chain.now → IsChained _theory.now now last link.now → IsJoin _theory.now first last chain.now link.now result }
{
    let Some((typ, first, _)) = as_equation(&chain.prop) else {
        unreachable!();
    };
    let Some((_, _, last)) = as_equation(&link.prop) else {
        unreachable!();
    };
    let left = first.copy(alloc)?;
    let right = last.copy(alloc)?;
    let prop = equation(alloc, typ, left, right)?;
    inferred(from_two(alloc, chain, link, prop))
}

/// The equation of a proposition with what it comes to by the fact, from that with what it has come to.
fn further(alloc: Global, theory: &Theory, chain: &Thm, fact: &Thm) -> Result<Thm, StepFault>
    requires content { IsUnifyContent theory.now }
    requires chain { IsChain theory.now chain.now }
    requires fact { IsReadyFact theory.now fact.now }
    ensures { (first : tree.Term) → (now : tree.Term) → IsChained theory.now first now chain.now → IsTaken theory.now first now fact.now chain.now result }
{
    match unfolded_by(alloc, theory, chain, fact) {
        Ok(link) => {
            let answer = joined(alloc, theory, chain, &link);
            discard(link);
            answer
        }
        Err(fault) => Err(fault),
    }
}

/// That equation in place of the one before.
fn replaced(alloc: Global, theory: &Theory, chain: Thm, fact: &Thm) -> Result<Thm, StepFault>
    requires content { IsUnifyContent theory.now }
    requires chain { IsChain theory.now chain }
    requires fact { IsReadyFact theory.now fact.now }
    ensures { (first : tree.Term) → (now : tree.Term) → IsChained theory.now first now chain → IsTaken theory.now first now fact.now chain result }
{
    let answer = further(alloc, theory, &chain, fact);
    discard(chain);
    answer
}

/// The equation of the proposition with what it comes to by the facts, one after the other.
fn chained(alloc: Global, theory: &Theory, first: &Term, facts: &[Thm]) -> Result<Thm, StepFault>
    requires content { IsUnifyContent theory.now }
    requires proposition { IsProposition theory.now first.now }
    requires facts { Each (IsReadyFact theory.now) facts.now }
    ensures { AreTaken theory.now first.now facts.now result }
{
    let mut chain = unchanged(alloc, first)?;
    for fact in facts {
        match replaced(alloc, theory, chain, fact) {
            Ok(more) => chain = more,
            Err(fault) => return Err(fault),
        }
    }
    Ok(chain)
}

/// The goal whose first subgoal is converted by the facts.
fn converted(
    alloc: Global,
    theory: &Theory,
    goal: &Goal,
    first: &Term,
    facts: &[Thm],
) -> Result<Goal, StepFault>
    requires content { IsUnifyContent theory.now }
    requires goal { MayStep theory.now goal.now.thm }
    requires first { IsFirstSubgoal goal.now.thm first.now }
    requires facts { Each (IsReadyFact theory.now) facts.now }
    ensures answer { IsStep (λ s. UnfoldStep (algebra_of theory.now.declarations) s facts.now) goal.now.thm (IsSetOf label_cmp (goal.now.thm.rests ++ all_rests facts.now)) result }
    ensures may { IfOk result (λ new. MayStep theory.now new.thm) }
{
    match chained(alloc, theory, first, facts) {
        Ok(equation) => {
            let answer = goal.convert(alloc, theory, &equation);
            discard(equation);
            answer
        }
        Err(fault) => Err(fault),
    }
}

/// The goal with the facts unfolded in its first subgoal.
pub fn unfolded(
    alloc: Global,
    theory: &Theory,
    goal: &Goal,
    facts: &[Thm],
) -> Result<Goal, StepFault>
    requires content { IsUnifyContent theory.now }
    requires goal { MayStep theory.now goal.now.thm }
    requires facts { Each (IsReadyFact theory.now) facts.now }
    ensures answer { IsStep (λ s. UnfoldStep (algebra_of theory.now.declarations) s facts.now) goal.now.thm (IsSetOf label_cmp (goal.now.thm.rests ++ all_rests facts.now)) result }
    ensures may { IfOk result (λ new. MayStep theory.now new.thm) }
{
    match as_implication(&goal.thm.prop) {
        Some((first, _)) => converted(alloc, theory, goal, first, facts),
        None => Err(StepFault::NoSubgoal),
    }
}

//! The call that unifies patterns.
ghost use Rattle.std.specs.Prelude.{◌≡◌, ◌↔◌, ◌+◌, ◌<◌, ◌^◌, IsTrue, IfOk, reverse};
ghost use Rattle.pure_text.specs.Lists.{Each};
ghost use Rattle.pure_pattern_laws.specs.Patterns.{HasSchematicTyp, IsPatternPair};
ghost use Rattle.pure_pattern_laws.specs.Steps.{start};
ghost use Rattle.pure_pattern_laws.specs.Answers.{AreReady};
ghost use Rattle.pure_pattern_laws.specs.Laws.{IsMostGeneral};
ghost use Rattle.pure_pattern_rules.specs.Treated.{AreSidesWithin};
ghost use Rattle.pure_pattern.specs.Answered.{IsAnswered, IsSolution, IsNoFinal};
ghost use Rattle.pure_pattern.specs.Followed.{IsDecided};

use crate::fault::PatternFault;
use crate::given::given_of;
use crate::run::run;
use crate::state::push_pairs;
use pure_pattern_terms::{first_no_pattern, first_with_schematic_typ};
use pure_term::{TermBind, TermMap, is_within};
use pure_theorem::{Pair, copied_pairs};
use std::alloc::{AllocError, Global};

/// Whether both sides are within the limits.
fn is_pair_within(pair: &Pair) -> bool
    ensures { IsTrue result ↔ AreSidesWithin pair.now }
{
    is_within(&pair.left) && is_within(&pair.right)
}

/// Whether the sides of the pairs are within the limits.
fn are_within(pairs: &[Pair]) -> bool
    ensures { IsTrue result ↔ Each AreSidesWithin pairs.now }
{
    for pair in pairs {
        if !is_pair_within(pair) {
            return false;
        }
    }
    true
}

/// A copy of the pairs, the first one last.
fn stack_of(alloc: Global, pairs: &[Pair]) -> Result<Vec<Pair>, AllocError>
    ensures { IfOk result (λ stack. stack.items ≡ reverse pairs.now) }
{
    let copies = copied_pairs(alloc, pairs)?;
    let mut stack = Vec::with_capacity(alloc, copies.len())?;
    push_pairs(&mut stack, copies)?;
    Ok(stack)
}

/// What steps come to from pairs of patterns: the entries of indexes up to `maxidx`.
fn decide(alloc: Global, pairs: &[Pair], maxidx: u32) -> Result<Vec<TermBind>, PatternFault>
    requires ready { AreReady maxidx pairs.now }
    requires patterns { Each IsPatternPair pairs.now }
    requires room { maxidx + 10001 < 2 ^ 32 }
    ensures { IsDecided maxidx (start pairs.now) result }
{
    if !are_within(pairs) {
        return Err(PatternFault::Big);
    }
    let stack = stack_of(alloc, pairs)?;
    run(alloc, maxidx, stack)
}

/// The unifier of pairs of patterns, or why there is none to answer.
fn unified(alloc: Global, pairs: &[Pair], maxidx: u32) -> Result<TermMap, PatternFault>
    requires ready { AreReady maxidx pairs.now }
    requires plain { Each (λ p. ¬ HasSchematicTyp p) pairs.now }
    requires patterns { Each IsPatternPair pairs.now }
    requires room { maxidx + 10001 < 2 ^ 32 }
    ensures { IsAnswered maxidx pairs.now result }
{
    let all = match decide(alloc, pairs, maxidx) {
        Ok(all) => all,
        Err(fault) => return Err(fault),
    };
    let given = given_of(alloc, pairs, maxidx, all)?;
    let map = TermMap::make(alloc, given)?;
    Ok(map)
}

/// The answer about pairs without schematic type variables.
fn plain_answer(alloc: Global, pairs: &[Pair], maxidx: u32) -> Result<TermMap, PatternFault>
    requires ready { AreReady maxidx pairs.now }
    requires plain { Each (λ p. ¬ HasSchematicTyp p) pairs.now }
    requires room { maxidx + 10001 < 2 ^ 32 }
    ensures { IsAnswered maxidx pairs.now result }
{
    match first_no_pattern(alloc, pairs) {
        Ok(Some(index)) => Err(PatternFault::NotPattern { index }),
        Ok(None) => unified(alloc, pairs, maxidx),
        Err(_) => Err(PatternFault::Memory),
    }
}

/// The answer about the pairs.
fn answered(alloc: Global, pairs: &[Pair], maxidx: u32) -> Result<TermMap, PatternFault>
    requires ready { AreReady maxidx pairs.now }
    requires room { maxidx + 10001 < 2 ^ 32 }
    ensures { IsAnswered maxidx pairs.now result }
{
    match first_with_schematic_typ(pairs) {
        Some(index) => Err(PatternFault::SchematicType { index }),
        None => plain_answer(alloc, pairs, maxidx),
    }
}

/// The most general unifier of pairs of patterns: terms in which each schematic variable stands applied to distinct bound
/// variables (D. Miller, A logic programming language with lambda-abstraction, function variables, and simple unification,
/// 1991; T. Nipkow, Functional unification of higher-order patterns, 1993). Its entries are those of variables of the pairs,
/// with images in long form. New variables have indexes above `maxidx`, which is at least each index in the pairs. The sides
/// are in long form; nothing of a theory is asked.
///
/// # Errors
///
/// Why there is none to answer. `SchematicType` is asked of all pairs before `NotPattern`. That there is no unifier is final:
/// nothing solves the pairs.
pub fn unify_pattern(alloc: Global, pairs: &[Pair], maxidx: u32) -> Result<TermMap, PatternFault>
    requires ready { AreReady maxidx pairs.now }
    requires room { maxidx + 10001 < 2 ^ 32 }
    ensures answer { IsAnswered maxidx pairs.now result }
    ensures unifies { IfOk result (IsSolution pairs.now) }
    ensures most_general { IfOk result (IsMostGeneral pairs.now) }
    ensures unsolved { IsNoFinal pairs.now result }
{
    answered(alloc, pairs, maxidx)
}

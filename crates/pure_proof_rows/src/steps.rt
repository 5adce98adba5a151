//! Steps on goals of a theory, with the built facts.
ghost use Rattle.std.specs.Prelude.{IfOk};
ghost use Rattle.pure_unify_laws.specs.Condition.{IsUnifyContent};
ghost use Rattle.pure_resolve.specs.Uses.{MayStep};
ghost use Rattle.pure_proof_rows.specs.Fact.{IsReadyFact};

use pure_resolve::{Goal, StepFault, start};
use pure_rows::number_of;
use pure_rules::built;
use pure_shown::cut;
use pure_term::Term;
use pure_theorem::{Built, Thm, is_prop};
use pure_theory::Theory;
use std::alloc::Global;
use std::mem;

/// A call on a goal.
#[derive(Clone, Copy)]
pub(crate) enum Step {
    Rule(Built),
    Erule(Built),
    Drule(Built),
    Assumption,
    Prefer(u32),
    Defer,
}

/// Pure's own facts and their names.
const FACTS: [(&[u8], Built); 6] = [
    (b"Refl", Built::Refl),
    (b"Subst", Built::Subst),
    (b"Ext", Built::Ext),
    (b"Iff", Built::Iff),
    (b"Mp", Built::Mp),
    (b"Spec", Built::Spec),
];

/// Pure's own fact of this name.
fn built_fact(name: &[u8]) -> Option<Built> {
    for (own, fact) in &FACTS {
        if *own == name {
            return Some(*fact);
        }
    }
    None
}

/// What a step needs besides its word.
#[derive(Clone, Copy)]
enum Word {
    Rule,
    Erule,
    Drule,
    Assumption,
    Prefer,
    Defer,
}

/// The words of steps.
const WORDS: [(&[u8], Word); 6] = [
    (b"rule", Word::Rule),
    (b"erule", Word::Erule),
    (b"drule", Word::Drule),
    (b"assumption", Word::Assumption),
    (b"prefer", Word::Prefer),
    (b"defer", Word::Defer),
];

/// The step's word that is written so.
fn read_word(text: &[u8]) -> Option<Word> {
    for (own, word) in &WORDS {
        if *own == text {
            return Some(*word);
        }
    }
    None
}

/// The step that the text writes: a word, and for some a fact's name or a number.
pub(crate) fn read_step(text: &[u8]) -> Option<Step> {
    let (word, given) = cut(text, b' ');
    match read_word(word)? {
        Word::Rule => Some(Step::Rule(built_fact(given)?)),
        Word::Erule => Some(Step::Erule(built_fact(given)?)),
        Word::Drule => Some(Step::Drule(built_fact(given)?)),
        Word::Prefer => Some(Step::Prefer(number_of(given)?)),
        Word::Assumption if given.is_empty() => Some(Step::Assumption),
        Word::Defer if given.is_empty() => Some(Step::Defer),
        _ => None,
    }
}

/// The first goal for the statement, where it is a proposition of the theory.
pub(crate) fn started(alloc: Global, theory: &Theory, statement: &Term) -> Result<Goal, StepFault>
    requires { IsUnifyContent theory.now }
    ensures { IfOk result (λ new. MayStep theory.now new.thm) }
{
    let Ok(typ) = theory.certify(statement) else {
        return Err(StepFault::Memory);
    };
    if !is_prop(&typ) {
        return Err(StepFault::Memory);
    }
    start(alloc, theory, statement)
}

/// The built fact as a theorem.
fn fact(alloc: Global, theory: &Theory, which: Built) -> Result<Thm, StepFault>
    requires { IsUnifyContent theory.now }
    ensures { IfOk result (IsReadyFact theory.now) }
{
    match built(alloc, theory, which) {
        Ok(fact) => Ok(fact),
        Err(_) => Err(StepFault::Memory),
    }
}

/// The goal by a rule.
fn by_rule(alloc: Global, theory: &Theory, goal: &Goal, which: Built) -> Result<Goal, StepFault>
    requires content { IsUnifyContent theory.now }
    requires goal { MayStep theory.now goal.now.thm }
    ensures { IfOk result (λ new. MayStep theory.now new.thm) }
{
    let fact = fact(alloc, theory, which)?;
    let answer = goal.rule(alloc, theory, &fact);
    mem::forget(fact);
    answer
}

/// The goal by elimination.
fn by_erule(alloc: Global, theory: &Theory, goal: &Goal, which: Built) -> Result<Goal, StepFault>
    requires content { IsUnifyContent theory.now }
    requires goal { MayStep theory.now goal.now.thm }
    ensures { IfOk result (λ new. MayStep theory.now new.thm) }
{
    let fact = fact(alloc, theory, which)?;
    let answer = goal.erule(alloc, theory, &fact);
    mem::forget(fact);
    answer
}

/// The goal by destruction.
fn by_drule(alloc: Global, theory: &Theory, goal: &Goal, which: Built) -> Result<Goal, StepFault>
    requires content { IsUnifyContent theory.now }
    requires goal { MayStep theory.now goal.now.thm }
    ensures { IfOk result (λ new. MayStep theory.now new.thm) }
{
    let fact = fact(alloc, theory, which)?;
    let answer = goal.drule(alloc, theory, &fact);
    mem::forget(fact);
    answer
}

/// The goal by assumption.
fn assumed(alloc: Global, theory: &Theory, goal: &Goal) -> Result<Goal, StepFault>
    requires content { IsUnifyContent theory.now }
    requires goal { MayStep theory.now goal.now.thm }
    ensures { IfOk result (λ new. MayStep theory.now new.thm) }
{
    let answer = goal.assumption(alloc, theory);
    answer
}

/// The goal with this subgoal first.
fn preferred(alloc: Global, theory: &Theory, goal: &Goal, n: u32) -> Result<Goal, StepFault>
    requires { MayStep theory.now goal.now.thm }
    ensures { IfOk result (λ new. MayStep theory.now new.thm) }
{
    let answer = goal.prefer(alloc, theory, n);
    answer
}

/// The goal with its first subgoal last.
fn deferred(alloc: Global, theory: &Theory, goal: &Goal) -> Result<Goal, StepFault>
    requires { MayStep theory.now goal.now.thm }
    ensures { IfOk result (λ new. MayStep theory.now new.thm) }
{
    let answer = goal.defer(alloc, theory);
    answer
}

/// The goal after the step.
pub(crate) fn stepped(
    alloc: Global,
    theory: &Theory,
    goal: &Goal,
    step: Step,
) -> Result<Goal, StepFault>
    requires content { IsUnifyContent theory.now }
    requires goal { MayStep theory.now goal.now.thm }
    ensures { IfOk result (λ new. MayStep theory.now new.thm) }
{
    match step {
        Step::Rule(which) => by_rule(alloc, theory, goal, which),
        Step::Erule(which) => by_erule(alloc, theory, goal, which),
        Step::Drule(which) => by_drule(alloc, theory, goal, which),
        Step::Assumption => assumed(alloc, theory, goal),
        Step::Prefer(n) => preferred(alloc, theory, goal, n),
        Step::Defer => deferred(alloc, theory, goal),
    }
}

/// The theorem that the goal proves.
pub(crate) fn finished(alloc: Global, theory: &Theory, goal: &Goal) -> Result<Thm, StepFault>
    requires { MayStep theory.now goal.now.thm }
{
    goal.finish(alloc, theory)
}

//! The steps of a proof that have numbers, on a goal.
ghost use Rattle.std.specs.Prelude.{◌≡◌, ◌≢◌, IfOk};
ghost use Rattle.pure_definitions.specs.Declarations.Decl.{algebra_of};
ghost use Rattle.pure_grammar.specs.Theories.TheoryText as written_steps;
ghost use Rattle.pure_script.specs.Seen.{seen_step};
ghost use Rattle.pure_theorem.specs.Sets.{IsLabelSet};
ghost use Rattle.pure_unify_laws.specs.Condition.{IsUnifyContent};
ghost use Rattle.pure_resolve.specs.GoalSteps.Steps.{AssumptionStep, PreferStep, DeferStep};
ghost use Rattle.pure_resolve.specs.Goals.{IsStep};
ghost use Rattle.pure_resolve.specs.Uses.{MayStep};
ghost use Rattle.pure_method.specs.Running.{IsReady, IsStepIn};

use crate::fact::{discard, discard_all, found_fact, found_facts};
use crate::unfold::unfolded;
use pure_declare::theory::Theory;
use pure_resolve::Goal;
use pure_resolve::goal_steps::StepFault;
use pure_script::{Step, TextList};
use pure_term::Name;
use pure_typ::NamesByBase;
use pure_watch::Watch;
use std::alloc::Global;

/// The goal by a rule, in a proof in the lemma.
fn by_rule<W: Watch>(
    alloc: Global,
    names: &NamesByBase,
    theory: &Theory,
    lemma: Name,
    goal: &Goal,
    written: &[u8],
    watch: &W,
) -> Result<Goal, StepFault>
    requires ready { IsReady names.now theory.now }
    requires goal { MayStep theory.now goal.now.thm }
    ensures answer { IsStepIn names.now theory.now lemma (written_steps.Rule written.now) goal.now.thm result }
    ensures may { IfOk result (λ new. MayStep theory.now new.thm) }
{
    match found_fact(alloc, names, theory, lemma, written) {
        Ok(fact) => {
            let answer = goal.rule_while(alloc, theory, &fact, watch);
            discard(fact);
            answer
        }
        Err(fault) => Err(fault),
    }
}

/// The goal by elimination with a fact, in a proof in the lemma.
fn by_erule<W: Watch>(
    alloc: Global,
    names: &NamesByBase,
    theory: &Theory,
    lemma: Name,
    goal: &Goal,
    written: &[u8],
    watch: &W,
) -> Result<Goal, StepFault>
    requires ready { IsReady names.now theory.now }
    requires goal { MayStep theory.now goal.now.thm }
    ensures answer { IsStepIn names.now theory.now lemma (written_steps.Erule written.now) goal.now.thm result }
    ensures may { IfOk result (λ new. MayStep theory.now new.thm) }
{
    match found_fact(alloc, names, theory, lemma, written) {
        Ok(fact) => {
            let answer = goal.erule_while(alloc, theory, &fact, watch);
            discard(fact);
            answer
        }
        Err(fault) => Err(fault),
    }
}

/// The goal by destruction with a fact, in a proof in the lemma.
fn by_drule<W: Watch>(
    alloc: Global,
    names: &NamesByBase,
    theory: &Theory,
    lemma: Name,
    goal: &Goal,
    written: &[u8],
    watch: &W,
) -> Result<Goal, StepFault>
    requires ready { IsReady names.now theory.now }
    requires goal { MayStep theory.now goal.now.thm }
    ensures answer { IsStepIn names.now theory.now lemma (written_steps.Drule written.now) goal.now.thm result }
    ensures may { IfOk result (λ new. MayStep theory.now new.thm) }
{
    match found_fact(alloc, names, theory, lemma, written) {
        Ok(fact) => {
            let answer = goal.drule_while(alloc, theory, &fact, watch);
            discard(fact);
            answer
        }
        Err(fault) => Err(fault),
    }
}

/// The goal with definitions unfolded in its first subgoal, in a proof in the lemma.
fn by_unfolding(
    alloc: Global,
    names: &NamesByBase,
    theory: &Theory,
    lemma: Name,
    goal: &Goal,
    written: &TextList,
) -> Result<Goal, StepFault>
    requires ready { IsReady names.now theory.now }
    requires goal { MayStep theory.now goal.now.thm }
    ensures answer { IsStepIn names.now theory.now lemma (written_steps.Unfold written.now) goal.now.thm result }
    ensures may { IfOk result (λ new. MayStep theory.now new.thm) }
{
    match found_facts(alloc, names, theory, lemma, written) {
        Ok(found) => {
            let answer = unfolded(alloc, theory, goal, &found);
            discard_all(found);
            answer
        }
        Err(fault) => Err(fault),
    }
}

/// The goal by assumption.
pub fn assumed<W: Watch>(
    alloc: Global,
    theory: &Theory,
    goal: &Goal,
    watch: &W,
) -> Result<Goal, StepFault>
    requires content { IsUnifyContent theory.now }
    requires goal { MayStep theory.now goal.now.thm }
    ensures answer { IsStep (AssumptionStep (algebra_of theory.now.declarations)) goal.now.thm (λ rests. rests ≡ goal.now.thm.rests) result }
    ensures may { IfOk result (λ new. MayStep theory.now new.thm) }
{
    let answer = goal.assumption_while(alloc, theory, watch);
    answer
}

/// The goal with this subgoal first.
fn preferred(alloc: Global, theory: &Theory, goal: &Goal, n: u32) -> Result<Goal, StepFault>
    requires { MayStep theory.now goal.now.thm }
    ensures answer { IsStep (λ s. PreferStep s n) goal.now.thm (λ rests. rests ≡ goal.now.thm.rests) result }
    ensures may { IfOk result (λ new. MayStep theory.now new.thm) }
{
    let answer = goal.prefer(alloc, theory, n);
    answer
}

/// The goal with its first subgoal last.
fn deferred(alloc: Global, theory: &Theory, goal: &Goal) -> Result<Goal, StepFault>
    requires { MayStep theory.now goal.now.thm }
    ensures answer { IsStep DeferStep goal.now.thm (λ rests. rests ≡ goal.now.thm.rests) result }
    ensures may { IfOk result (λ new. MayStep theory.now new.thm) }
{
    let answer = goal.defer(alloc, theory);
    answer
}

/// The goal after a step that is neither the end nor that which closes subgoals, in a proof in the lemma.
pub fn stepped<W: Watch>(
    alloc: Global,
    names: &NamesByBase,
    theory: &Theory,
    lemma: Name,
    goal: &Goal,
    step: &Step,
    watch: &W,
) -> Result<Goal, StepFault>
    requires ready { IsReady names.now theory.now }
    requires goal { MayStep theory.now goal.now.thm }
    requires set { IsLabelSet goal.now.thm.rests }
    requires close { seen_step step.now ≢ written_steps.Close }
    requires end { seen_step step.now ≢ written_steps.Done }
    ensures answer { IsStepIn names.now theory.now lemma (seen_step step.now) goal.now.thm result }
    ensures may { IfOk result (λ new. MayStep theory.now new.thm) }
{
    match step {
        Step::Rule { fact } => by_rule(alloc, names, theory, lemma, goal, fact.bytes(), watch),
        Step::Erule { fact } => by_erule(alloc, names, theory, lemma, goal, fact.bytes(), watch),
        Step::Drule { fact } => by_drule(alloc, names, theory, lemma, goal, fact.bytes(), watch),
        Step::Assumption => assumed(alloc, theory, goal, watch),
        Step::Unfold { facts } => by_unfolding(alloc, names, theory, lemma, goal, facts),
        Step::Prefer { n } => preferred(alloc, theory, goal, *n),
        Step::Defer => deferred(alloc, theory, goal),
        Step::Close => unreachable!(),
        Step::Done => unreachable!(),
    }
}

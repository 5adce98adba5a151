//! A proof on its way: a goal, and the steps that are left.
ghost use Rattle.std.specs.Prelude.{◌≡◌, ◌≢◌, ◌+◌, ◌∷◌, drop, IfOk};
ghost use Rattle.pure_grammar.specs.Theories.TheoryText as tree;
ghost use Rattle.pure_logic.specs.Derivable.{IsDerivable};
ghost use Rattle.pure_script.specs.Seen.{seen_step};
ghost use Rattle.pure_theorem.specs.Sets.{IsLabelSet};
ghost use Rattle.pure_method.specs.Facts as facts;
ghost use Rattle.pure_method.specs.Outcome.{IsProvable, IsOutcomeOf};
ghost use Rattle.pure_method.specs.Running.{IsRun, IsNext, IsFurther, StopsSo};
ghost use Rattle.pure_method.specs.declared.outcome.Outcome.TheVariants as shown;

use crate::close::closed;
use crate::duty::{certified, lemma_of, place_behind, step_at, theory_of};
use crate::fault::is_memory;
use crate::outcome::Outcome;
use crate::step::stepped;
use pure_declare::Duty;
use pure_resolve::Goal;
use pure_script::Step;
use pure_theorem::Thm;
use pure_typ::NamesByBase;
use pure_watch::Watch;
use std::alloc::{AllocError, Global};

/// A goal, the place of the next step in the proof, and the number of the next step that has one.
#[derive(Drop)]
pub struct Run {
    pub goal: Goal,
    pub at: usize,
    pub number: u32,
}

/// What a step leaves: a run further on; or the run as it was, and what comes of the proof.
#[derive(Drop)]
pub enum Next {
    Goes { run: Run },
    Ends { run: Run, outcome: Outcome },
}

/// The outcome of a proof that rests on what the theorem rests on.
fn proved(alloc: Global, duty: &Duty, th: &Thm) -> Result<Outcome, AllocError>
    requires set { IsLabelSet th.now.rests }
    requires derivable { IsDerivable duty.now.content (facts.theorem duty.now.prop th.now.rests) }
    ensures { IfOk result (λ made. made ≡ shown.Proved (record { content = duty.now.content; theorem = facts.theorem duty.now.prop th.now.rests })) }
{
    let rests = Vec::from_slice(alloc, &th.rests)?;
    let result = certified(alloc, duty, rests)?;
    Ok(Outcome::Proved { result })
}

/// What comes of the end of a proof.
fn ended(alloc: Global, _names: &NamesByBase, duty: &Duty, run: &Run) -> Result<Outcome, AllocError>
    requires provable { IsProvable _names.now duty.now }
    requires run { IsRun _names.now duty.now run.now }
    requires end { drop run.now.at duty.now.script ≡ tree.Done ∷ drop (run.now.at + 1) duty.now.script }
    ensures { IfOk result (λ outcome. IsOutcomeOf _names.now duty.now outcome × StopsSo _names.now duty.now run.now outcome) }
{
    match run.goal.check_end(alloc, theory_of(duty)) {
        Ok(()) => proved(alloc, duty, &run.goal.thm),
        Err(fault) => {
            if is_memory(fault) {
                return Err(AllocError);
            }
            Ok(Outcome::Fault {
                step: run.number,
                fault,
            })
        }
    }
}

/// The run behind the closing of subgoals.
fn closed_run<W: Watch>(
    alloc: Global,
    _names: &NamesByBase,
    duty: &Duty,
    run: Run,
    watch: &W,
) -> Result<Run, AllocError>
    requires provable { IsProvable _names.now duty.now }
    requires run { IsRun _names.now duty.now run }
    requires close { drop run.at duty.now.script ≡ tree.Close ∷ drop (run.at + 1) duty.now.script }
    ensures { IfOk result (λ new. IsRun _names.now duty.now new × (new.at ≡ run.at + 1) × IsFurther _names.now duty.now run new) }
{
    let Run { goal, at, number } = run;
    let at = place_behind(duty, at);
    let goal = closed(alloc, theory_of(duty), goal, watch)?;
    Ok(Run { goal, at, number })
}

/// What a step leaves that has a number and isn't the end.
fn further<W: Watch>(
    alloc: Global,
    names: &NamesByBase,
    duty: &Duty,
    run: Run,
    step: &Step,
    watch: &W,
) -> Result<Next, AllocError>
    requires provable { IsProvable names.now duty.now }
    requires run { IsRun names.now duty.now run }
    requires step { drop run.at duty.now.script ≡ seen_step step.now ∷ drop (run.at + 1) duty.now.script }
    requires close { seen_step step.now ≢ tree.Close }
    requires end { seen_step step.now ≢ tree.Done }
    ensures { IfOk result (IsNext names.now duty.now run) }
{
    let at = place_behind(duty, run.at);
    match stepped(
        alloc,
        names,
        theory_of(duty),
        lemma_of(duty),
        &run.goal,
        step,
        watch,
    ) {
        Ok(goal) => Ok(Next::Goes {
            run: Run {
                goal,
                at,
                number: run.number + 1,
            },
        }),
        Err(fault) => {
            if is_memory(fault) {
                return Err(AllocError);
            }
            let number = run.number;
            let outcome = Outcome::Fault {
                step: number,
                fault,
            };
            Ok(Next::Ends { run, outcome })
        }
    }
}

/// What the next step leaves.
pub fn next_of<W: Watch>(
    alloc: Global,
    names: &NamesByBase,
    duty: &Duty,
    run: Run,
    watch: &W,
) -> Result<Next, AllocError>
    requires provable { IsProvable names.now duty.now }
    requires run { IsRun names.now duty.now run }
    ensures { IfOk result (IsNext names.now duty.now run) }
{
    let step = step_at(duty, run.at);
    match step {
        Step::Done => {
            let outcome = ended(alloc, names, duty, &run)?;
            Ok(Next::Ends { run, outcome })
        }
        Step::Close => {
            let run = closed_run(alloc, names, duty, run, watch)?;
            Ok(Next::Goes { run })
        }
        _ => further(alloc, names, duty, run, step, watch),
    }
}

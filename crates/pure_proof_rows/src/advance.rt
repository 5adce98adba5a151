//! Proofs that are run to their end by one step after another, and at once.
ghost use Rattle.pure_theory_run.specs.Method.Outcome.{IsProvable};
ghost use Rattle.pure_theory_run.specs.Method.Running.{Proves};

use crate::outcomes::{Wanted, are_same, is_wanted};
use pure_theory_run::declare::Duty;
use pure_theory_run::method::{Outcome, Proving, prove, start};
use pure_typ::NamesByBase;
use std::alloc::{AllocError, Global};
use std::mem;

/// What came of a proof, and after how many steps.
#[derive(Drop)]
struct Advanced {
    outcome: Outcome,
    steps: u32,
}

/// Runs a lemma's proof to its end, one step after another.
fn run_to_end(
    alloc: Global,
    names: &NamesByBase,
    duty: &Duty,
    proving: &mut Proving,
) -> Result<Advanced, AllocError>
    requires provable { IsProvable names.now duty.now }
    requires proves { Proves names.now duty.now proving.old }
{
    let mut steps = 0_u32;
    loop {
        steps = steps.saturating_add(1);
        if let Some(outcome) = proving.advance(alloc, names, duty)? {
            return Ok(Advanced { outcome, steps });
        }
    }
}

/// Runs the lemma's proof, one step after another.
fn by_steps(alloc: Global, names: &NamesByBase, duty: &Duty) -> Result<Advanced, AllocError>
    requires { IsProvable names.now duty.now }
{
    let mut proving = start(alloc, names, duty)?;
    let answer = run_to_end(alloc, names, duty, &mut proving);
    mem::forget(proving);
    answer
}

/// Whether the proof comes to this outcome, and to the wanted one after so many steps. What came of it isn't let go, since to prove that anew takes minutes.
fn is_outcome(
    alloc: Global,
    names: &NamesByBase,
    duty: &Duty,
    steps: u32,
    wanted: Wanted<'_>,
    outcome: &Outcome,
) -> Result<bool, AllocError>
    requires { IsProvable names.now duty.now }
{
    let own = by_steps(alloc, names, duty)?;
    let is_same = own.steps == steps && are_same(outcome, &own.outcome);
    mem::forget(own);
    Ok(is_same && is_wanted(outcome, &*duty.prop, wanted))
}

/// Whether the wanted outcome comes of the proof, after so many steps and at once.
pub(crate) fn comes_to(
    alloc: Global,
    names: &NamesByBase,
    duty: &Duty,
    steps: u32,
    wanted: Wanted<'_>,
) -> Result<bool, AllocError>
    requires { IsProvable names.now duty.now }
{
    let outcome = prove(alloc, names, duty)?;
    let answer = is_outcome(alloc, names, duty, steps, wanted, &outcome);
    mem::forget(outcome);
    answer
}

//! What a lemma that is still to be proved gives to its proof.
ghost use Rattle.std.specs.Prelude.{◌≡◌, ◌<◌, ◌∷◌, ◌+◌, drop, length, IfOk};
ghost use Rattle.pure_logic.specs.Derivable.{IsDerivable};
ghost use Rattle.pure_script.specs.Seen.{seen_step};
ghost use Rattle.pure_theorem.specs.Sets.{IsLabelSet};
ghost use Rattle.pure_declare.specs.Theory.Stage.{IsSound};
ghost use Rattle.pure_method.specs.Facts as facts;

use pure_declare::Duty;
use pure_declare::theory::{Cthm, Theory};
use pure_script::Step;
use pure_term::{Label, Name};
use pure_theorem::Thm;
use pure_theory_tables::shared;
use std::alloc::{AllocError, Global};
use std::sync::Arc;

/// The theory before the lemma.
pub fn theory_of(duty: &Duty) -> &Theory
    ensures value { result.now ≡ duty.now.content }
    ensures sound { IsSound duty.now.content }
{
    let theory = &*duty.stage;
    theory.content_is_sound();
    theory
}

/// The name of the lemma that is proved, or in which the statement stands.
pub fn lemma_of(duty: &Duty) -> Name
    ensures { result ≡ duty.now.lemma }
{
    duty.lemma
}

/// The step at this place of the proof.
pub fn step_at(duty: &Duty, at: usize) -> &Step
    requires { at < length duty.now.script }
    ensures { drop at duty.now.script ≡ seen_step result.now ∷ drop (at + 1) duty.now.script }
{
    let steps = duty.script.as_slice();
    &steps[at]
}

/// The place behind this one.
pub fn place_behind(duty: &Duty, at: usize) -> usize
    requires { at < length duty.now.script }
    ensures { result ≡ at + 1 }
{
    let _steps = duty.script.as_slice();
    at + 1
}

/// The lemma's theorem, resting on these promises.
fn lemma_theorem(alloc: Global, duty: &Duty, rests: Vec<Label>) -> Result<Thm, AllocError>
    requires { IsLabelSet rests.items }
    ensures { IfOk result (λ th. th ≡ facts.theorem duty.now.prop rests.items) }
{
    let prop = duty.prop.copy(alloc)?;
    Ok(Thm {
        hyps: Vec::new(alloc),
        pairs: Vec::new(alloc),
        prop,
        rests,
    })
}

/// The lemma's theorem with its theory.
pub fn certified(alloc: Global, duty: &Duty, rests: Vec<Label>) -> Result<Cthm, AllocError>
    requires set { IsLabelSet rests.items }
    requires derivable { IsDerivable duty.now.content (facts.theorem duty.now.prop rests.items) }
    ensures { IfOk result (λ c. c ≡ record { content = duty.now.content; theorem = facts.theorem duty.now.prop rests.items }) }
{
    let thm = lemma_theorem(alloc, duty, rests)?;
    let theorem = shared(alloc, thm)?;
    let stage = Arc::try_clone(&duty.stage)?;
    Ok(Cthm::make(stage, theorem))
}

//! A lemma with other proofs.
ghost use Rattle.std.specs.Prelude.{◌≡◌, IfOk, map};
ghost use Rattle.pure_script.specs.Seen.{seen_steps};
ghost use Rattle.pure_try.specs.Proofs.{by_script, by_method};

use crate::method::{Method, script};
use pure_check_work::declare::Duty;
use pure_check_work::theory::Theory;
use pure_script::Step;
use std::alloc::{AllocError, Global};
use std::sync::Arc;

/// The theory before the lemma.
pub(crate) fn theory_of(duty: &Duty) -> &Theory
    ensures { result.now ≡ duty.now.content }
{
    &duty.stage
}

/// The lemma with these steps for its proof.
fn with_script(duty: &Duty, script: Vec<Step>) -> Result<Duty, AllocError>
    ensures { IfOk result (λ d. d ≡ by_script duty.now (seen_steps script.items)) }
{
    let stage = Arc::try_clone(&duty.stage)?;
    let prop = Arc::try_clone(&duty.prop)?;
    Ok(Duty {
        label: duty.label,
        name: duty.name,
        lemma: duty.lemma,
        stage,
        prop,
        script,
    })
}

/// The lemma with the proof by this method.
fn with_method(alloc: Global, duty: &Duty, method: &Method) -> Result<Duty, AllocError>
    ensures { IfOk result (λ d. d ≡ by_method duty.now method.now) }
{
    let script = script(alloc, method)?;
    with_script(duty, script)
}

/// The lemma with the proof by each of the methods.
pub(crate) fn with_methods(
    alloc: Global,
    duty: &Duty,
    methods: &[Method],
) -> Result<Vec<Duty>, AllocError>
    ensures { IfOk result (λ ds. ds.items ≡ map (by_method duty.now) methods.now) }
{
    let mut duties = Vec::new(alloc);
    for method in methods {
        let duty = with_method(alloc, duty, method)?;
        duties.push(duty)?;
    }
    Ok(duties)
}

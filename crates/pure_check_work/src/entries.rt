//! The entries of lemmas, from their promises.
ghost use Rattle.std.specs.Prelude.{◌≡◌, IfOk, map};
ghost use Rattle.pure_text.specs.Lists.{EachTwo};
ghost use Rattle.pure_table.specs.Fulfilled as fulfilled;
ghost use Rattle.pure_machine.specs.Seen.{seen_standing};
ghost use Rattle.pure_check_work.specs.Cancelled.{held_own, lemmas_of, IsHeldOf};

use pure_core::{Promise, Standing};
use pure_table::declare::Duty;
use pure_table::method::Outcome;
use pure_table::promise::{Entry, Own};
use std::alloc::{AllocError, Global};
use std::sync::Arc;

/// What became of a lemma whose proof came to this.
fn own_by(outcome: &Outcome) -> Result<Own, AllocError>
    ensures { IfOk result (λ own. own ≡ fulfilled.own_of outcome.now) }
{
    match outcome {
        Outcome::Proved { result } => {
            let result = result.copy()?;
            Ok(Own::Proved { result })
        }
        Outcome::Fault { step, fault } => Ok(Own::Fault {
            step: *step,
            fault: *fault,
        }),
    }
}

/// What became of a lemma whose promise stands so.
fn own_standing(standing: &Standing<Outcome>) -> Result<Own, AllocError>
    ensures { IfOk result (λ own. own ≡ held_own (seen_standing standing.now)) }
{
    match standing {
        Standing::Settled { outcome } => own_by(outcome),
        Standing::Ready => Ok(Own::Cancelled),
        Standing::Taken => Ok(Own::Cancelled),
        Standing::Cancelled => Ok(Own::Cancelled),
    }
}

/// The lemma's entry, which shares its statement and its theorem.
fn entry(promise: &Promise<Duty, Outcome>) -> Result<Entry, AllocError>
    ensures { IfOk result (IsHeldOf promise.now) }
{
    let goal: &Duty = &promise.goal;
    let prop = Arc::try_clone(&goal.prop)?;
    let own = own_standing(&promise.standing)?;
    Ok(Entry {
        label: goal.label,
        name: goal.name,
        prop,
        own,
    })
}

/// The lemmas, in the order of their promises.
pub(crate) fn duties(
    alloc: Global,
    promises: &[Promise<Duty, Outcome>],
) -> Result<Vec<Arc<Duty>>, AllocError>
    ensures { IfOk result (λ duties. map (λ d. d.value) duties.items ≡ lemmas_of promises.now) }
{
    let mut duties = Vec::with_capacity(alloc, promises.len())?;
    for promise in promises {
        let duty = Arc::try_clone(&promise.goal)?;
        duties.push(duty)?;
    }
    Ok(duties)
}

/// The entries of the lemmas, in the order of their promises.
pub(crate) fn entries(
    alloc: Global,
    promises: Vec<Promise<Duty, Outcome>>,
) -> Result<Vec<Entry>, AllocError>
    ensures { IfOk result (λ entries. EachTwo IsHeldOf promises.items entries.items) }
{
    let mut entries = Vec::with_capacity(alloc, promises.len())?;
    for promise in promises {
        entries.push(entry(&promise)?)?;
    }
    Ok(entries)
}

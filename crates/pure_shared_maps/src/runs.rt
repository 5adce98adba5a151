//! The runs of a shelf, which grow by merging those that are as long as the new one.
ghost use Rattle.std.specs.Prelude.{◌≡◌, ◌∷◌, [], ◌++◌, IfOk, MatchOption, None, Some};
ghost use Rattle.std.specs.Ordering.{nat_cmp};
ghost use Rattle.std.specs.FinMap.{find};
ghost use Rattle.pure_text.specs.Lists.{Each};
ghost use Rattle.pure_shared_maps.specs.Pairs.{Ascends, joined};
ghost use Rattle.pure_shared_maps.specs.Runs.{CanTake, HasTaken};
ghost use Rattle.pure_shared_maps.specs.View.{pairs_of, runs_of};

use crate::entries::{Entry, found, united};
use std::alloc::{AllocError, Global};
use std::sync::Arc;

/// Pointers to the same runs.
pub(crate) fn shared_runs<V: Drop>(
    alloc: Global,
    runs: &[Arc<Vec<Entry<V>>>],
) -> Result<Vec<Arc<Vec<Entry<V>>>>, AllocError>
    ensures { IfOk result (λ copies. runs_of copies.items ≡ runs_of runs.now) }
{
    let copies = Vec::from_clones(alloc, runs)?;
    Ok(copies)
}

/// Pointers to the same runs, and to one run more.
fn appended<V: Drop>(
    alloc: Global,
    runs: &[Arc<Vec<Entry<V>>>],
    run: Vec<Entry<V>>,
) -> Result<Vec<Arc<Vec<Entry<V>>>>, AllocError>
    ensures { IfOk result (λ all. runs_of all.items ≡ runs_of runs.now ++ pairs_of run.items ∷ []) }
{
    let mut all = shared_runs(alloc, runs)?;
    let run = Arc::new(alloc, run)?;
    all.push(run)?;
    Ok(all)
}

/// The runs with one run more, which is merged with the last of them as long as the two have one length.
pub(crate) fn grown<V: Drop>(
    alloc: Global,
    runs: &[Arc<Vec<Entry<V>>>],
    run: Vec<Entry<V>>,
) -> Result<Vec<Arc<Vec<Entry<V>>>>, AllocError>
    requires { CanTake (runs_of runs.now) (pairs_of run.items) }
    ensures { IfOk result (λ all. HasTaken (runs_of runs.now) (pairs_of run.items) (runs_of all.items)) }
{
    let Some((last, rest)) = runs.split_last() else {
        return appended(alloc, runs, run);
    };
    let last = &**last;
    if last.len() != run.len() {
        return appended(alloc, runs, run);
    }
    let run = united(alloc, last.as_slice(), run)?;
    grown(alloc, rest, run)
}

/// The pointer to the value at a key, in the first run that has it.
pub(crate) fn found_in<V>(runs: &[Arc<Vec<Entry<V>>>], key: u32) -> Option<&Arc<V>>
    requires { Each Ascends (runs_of runs.now) }
    ensures { MatchOption result (find nat_cmp key (joined (runs_of runs.now)) ≡ None) (λ v. find nat_cmp key (joined (runs_of runs.now)) ≡ Some v.now.value) }
{
    for pointer in runs {
        let run = &**pointer;
        if let Some(value) = found(run.as_slice(), key) {
            return Some(value);
        }
    }
    None
}

//! Values that are worked on side by side.
ghost use Rattle.std.specs.Prelude.{◌≡◌, [], ◌∷◌, ◌++◌, IfOk, OnOk};
ghost use Rattle.std.specs.Thread.{IsSync, IsSend};
ghost use Rattle.std.specs.Fork.{AcceptsAt, ChangesAt};
ghost use Rattle.pure_text.specs.Lists.{Each, EachTwo};

use crate::beside::run_both;
use crate::room::threads_in_room;
use std::alloc::{AllocError, Global};
use std::marker::Send;
use std::snapshot::Snapshot;
use std::sync::Wait;
use std::thread::{Promise, Threads};

/// How a value may become another.
pub trait Becomes<T> {
    /// What an old value and a new one are to each other.
    ghost becomes: { Self → T → T → Type 0 };
}

/// That what the value may become comes back.
#[derive(Drop)]
struct Comes<T, Q: Becomes<T>> {
    old: Snapshot<T>,
    how: Snapshot<Q>,
}

impl<T, Q: Becomes<T>> Promise<T> for Comes<T, Q> {
    ghost kept_by = { λ comes new. Q.becomes comes.how.value comes.old.value new };
}

/// The values with one more.
fn with_value<T: Drop>(mut values: Vec<T>, value: T) -> Result<Vec<T>, AllocError>
    ensures { IfOk result (λ all. all.items ≡ values.items ++ value ∷ []) }
{
    values.push(value)?;
    Ok(values)
}

/// Lets go of a value where the others didn't come back.
fn lost<T: Drop>(_value: T, error: AllocError) -> Result<Vec<T>, AllocError>
    ensures { OnOk result ⊥ }
{
    Err(error)
}

/// The value as the work leaves it.
fn worked<T, F: Fn(usize, &mut T)>(work: &F, mut value: T) -> T
    requires { AcceptsAt F.Fn work.now 0 value }
    ensures { ChangesAt F.Fn work.now 0 value result }
{
    work(0, &mut value);
    value
}

/// Works on each value, the last so many in threads of their own where these can be made, the others one after the other in the
/// caller's.
#[cycle(values)]
fn work_on_some<
    R: Threads + Wait + Sync,
    T: Send + Drop,
    Q: Becomes<T>,
    F: Fn(usize, &mut T) + Sync,
>(
    rt: &R,
    alloc: Global,
    stack: usize,
    most: usize,
    how: &Q,
    work: &F,
    mut values: Vec<T>,
) -> Result<Vec<T>, AllocError>
    requires works { Each (AcceptsAt F.Fn work.now 0) values.items }
    requires becomes { (x y : T) → ChangesAt F.Fn work.now 0 x y → Q.becomes how.now x y }
    ensures { IfOk result (λ all. EachTwo (Q.becomes how.now) values.items all.items) }
{
    let Some(value) = values.pop() else {
        return Ok(Vec::new(alloc));
    };
    let promise = Comes {
        old: Snapshot::of(&value),
        how: Snapshot::of(how),
    };
    let fewer = most.saturating_sub(1);
    let first = move || -> T
        requires { IsSync F.row × AcceptsAt F.Fn work.now 0 value }
        ensures { ChangesAt F.Fn work.entry.now 0 value result }
    { worked(work, value) };
    let others = move || -> Result<Vec<T>, AllocError>
        requires { IsSync R.row × IsSync F.row × IsSend T.row × Each (AcceptsAt F.Fn work.now 0) values.items × ((x y : T) → ChangesAt F.Fn work.now 0 x y → Q.becomes how.now x y) }
        ensures { IfOk result (λ all. EachTwo (Q.becomes how.entry.now) values.items all.items) }
    { work_on_some(rt, alloc, stack, fewer, how, work, values) };
    let (value, before) = run_both(rt, most > 0, stack, promise, first, others);
    match before {
        Err(error) => lost(value, error),
        Ok(values) => with_value(values, value),
    }
}

/// Works on each value: on the first in the caller's thread, on each other in a thread of its own of this stack, in bytes, where
/// there is room for one, else in the caller's before the first. The work is called with each as that of place 0. The values come
/// back in their order, each as it may become so. It waits for all threads.
///
/// # Errors
///
/// Want of memory for the list of values.
pub fn work_on_each<
    R: Threads + Wait + Sync,
    T: Send + Drop,
    Q: Becomes<T>,
    F: Fn(usize, &mut T) + Sync,
>(
    rt: &R,
    alloc: Global,
    stack: usize,
    how: &Q,
    work: &F,
    values: Vec<T>,
) -> Result<Vec<T>, AllocError>
    requires works { Each (AcceptsAt F.Fn work.now 0) values.items }
    requires becomes { (x y : T) → ChangesAt F.Fn work.now 0 x y → Q.becomes how.now x y }
    ensures { IfOk result (λ all. EachTwo (Q.becomes how.now) values.items all.items) }
{
    let most = threads_in_room(alloc, stack, values.len().saturating_sub(1));
    work_on_some(rt, alloc, stack, most, how, work, values)
}

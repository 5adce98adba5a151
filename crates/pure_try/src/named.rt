//! The lemma of a session that has some name, tried.
ghost use Rattle.std.specs.Prelude.{◌≡◌, ◌<◌, ◌≤◌, IfOk, Some, length, map, slice_get};
ghost use Rattle.pure_race.specs.Least.{IsLeastWin};
ghost use Rattle.pure_check_work.specs.Method.Outcome.{IsProvable};
ghost use Rattle.pure_check_work.specs.SessionLaws.Loaded.{IsLoadedSession};
ghost use Rattle.pure_try.specs.Answers as spec;
ghost use Rattle.pure_try.specs.First.{IsTried};
ghost use Rattle.pure_try.specs.Proofs.{Wins, by_method};

use crate::answer::Answer;
use crate::duties::{theory_of, with_methods};
use crate::facts::methods;
use crate::method::Method;
use crate::tries::Tries;
use pure_check_work::declare::Duty;
use pure_check_work::session_meaning::laws::{forks_provable, statements_bind_forks};
use pure_check_work::theory_run::{Checker, lemma_named};
use pure_race::race;
use pure_typ::NamesByBase;
use std::alloc::{AllocError, Global};
use std::sync::Wait;
use std::thread::Threads;

/// The place of the first method that proves the lemma, by a race of so many workers.
fn winner<R: Threads + Wait + Sync>(
    rt: &R,
    alloc: Global,
    names: &NamesByBase,
    duty: &Duty,
    methods: &[Method],
    workers: u32,
) -> Result<Option<u32>, AllocError>
    requires provable { IsProvable names.now duty.now }
    requires some { 1 ≤ workers }
    requires few { workers ≤ 64 }
    ensures { IfOk result (IsLeastWin (Wins (record { texts = names.now; forks = map (by_method duty.now) methods.now })) (length methods.now)) }
{
    let duties = with_methods(alloc, duty, methods)?;
    let tries = Tries::make(alloc, names, duties)?;
    let won = race(rt, alloc, &tries, workers)?;
    Ok(won)
}

/// A copy of the method at a place.
fn method_at(alloc: Global, methods: &[Method], place: u32) -> Result<Method, AllocError>
    requires { place < length methods.now }
    ensures { IfOk result (λ method. slice_get methods.now place ≡ Some method) }
{
    methods[place as usize].copy(alloc)
}

/// The first method in order by which the lemma is proved; none where none does it. The methods are tried by so many workers
/// at once. It may wait for ever.
///
/// # Errors
///
/// Want of memory alone.
pub fn first_method<R: Threads + Wait + Sync>(
    rt: &R,
    alloc: Global,
    names: &NamesByBase,
    duty: &Duty,
    workers: u32,
) -> Result<Option<Method>, AllocError>
    requires provable { IsProvable names.now duty.now }
    requires some { 1 ≤ workers }
    requires few { workers ≤ 64 }
    ensures { IfOk result (IsTried names.now duty.now) }
{
    let methods = methods(alloc, names, theory_of(duty))?;
    match winner(rt, alloc, names, duty, methods.as_slice(), workers)? {
        None => Ok(None),
        Some(place) => {
            let method = method_at(alloc, methods.as_slice(), place)?;
            Ok(Some(method))
        }
    }
}

/// What is said of the lemma with this full name among those that the session's theories bind: a lemma that is refused is
/// none. Its own proof isn't looked at, nor whether a lemma that is a rule has one. It may wait for ever.
///
/// # Errors
///
/// Want of memory alone.
pub fn try_lemma<R: Threads + Wait + Sync>(
    rt: &R,
    alloc: Global,
    checker: &Checker,
    name: &[u8],
    workers: u32,
) -> Result<Answer, AllocError>
    requires loaded { IsLoadedSession checker.now.texts checker.now.theories }
    requires some { 1 ≤ workers }
    requires few { workers ≤ 64 }
    ensures { IfOk result (spec.IsAnswer checker.now.texts checker.now.theories name.now) }
{
    forks_provable();
    statements_bind_forks();
    let statements = checker.statements()?;
    let names = checker.names();
    match lemma_named(names, statements.duties.as_slice(), name) {
        None => Ok(Answer::NoLemma),
        Some(duty) => {
            let first = first_method(rt, alloc, names, duty, workers)?;
            Ok(Answer::Tried { first })
        }
    }
}

//! The promises of a machine, in order of number.
ghost use Rattle.std.specs.Prelude.{◌≡◌, ◌≢◌, ◌<◌, ◌≤◌, ◌++◌, [], ◌∷◌, map, ℕ, length, Some, MatchBool, MatchOption, MatchResult, slice_get, if◌then◌else◌};
ghost use Rattle.pure_machine.specs.State.{Fork, Ready, Taken, Cancelled, with_standing, cancelled_promise};
ghost use Rattle.pure_machine.specs.Step.{NoPromiseReadyBelow, is_cancelled_promise};
ghost use Rattle.pure_machine.specs.Seen.{seen_standing};
ghost use Rattle.pure_machine.specs.Parts.{entered, made_promise, NoneTaken, changed_at, all_changed};

use crate::groups::Groups;
use crate::log::Log;
use crate::parts::{Event, Promise, Standing};
use std::alloc::AllocError;
use std::marker::Model;
use std::sync::Arc;

/// Promises in order of number, and a number before which none is ready.
#[derive(Drop)]
pub(crate) struct Promises<G, O> {
    list: Vec<Promise<G, O>>,
    cursor: usize,
}

impl<G, O> Model for Promises<G, O> {
    ghost use Rattle.std.specs.Prelude.{List, ◌≤◌, ◌<◌, ◌^◌, vec_len};
    ghost use Rattle.pure_machine.specs.State as seen;
    ghost use Rattle.pure_machine.specs.Step.{NoPromiseReadyBelow};

    ghost Value = { List (seen.Promise G O) };

    ghost view = { λ p. p.list.items };

    ghost invariant = { λ p. NoPromiseReadyBelow p.list.items p.cursor × (p.cursor ≤ vec_len p.list) × (vec_len p.list < 2 ^ 32) };
}

/// How a new promise stands.
fn standing_of<O>(cancelled: bool) -> Standing<O>
    ensures { seen_standing result ≡ (if cancelled then Cancelled else Ready) }
{
    if cancelled {
        return Standing::Cancelled;
    }
    Standing::Ready
}

/// Whether the promise is ready.
fn is_ready<G, O>(promise: &Promise<G, O>) -> bool
    ensures { MatchBool result (promise.now.standing ≡ Ready) (promise.now.standing ≢ Ready) }
{
    match &promise.standing {
        Standing::Ready => true,
        _ => false,
    }
}

/// The number of the first promise that is ready, before which from this number on none is; as many as there are where none is.
fn ready_from<G, O>(promises: &[Promise<G, O>], from: usize) -> usize
    requires before { NoPromiseReadyBelow promises.now from }
    requires within { from ≤ length promises.now }
    ensures below { NoPromiseReadyBelow promises.now result }
    ensures within { result ≤ length promises.now }
    ensures at { result < length promises.now → (p : _) × (slice_get promises.now result ≡ Some p) × (p.standing ≡ Ready) }
{
    let mut at = from;
    while at < promises.len() {
        if is_ready(&promises[at]) {
            return at;
        }
        at += 1;
    }
    at
}

/// Whether the proof of the promise runs.
fn is_taken<G, O>(promise: &Promise<G, O>) -> bool
    ensures { MatchBool result (promise.now.standing ≡ Taken) (promise.now.standing ≢ Taken) }
{
    match &promise.standing {
        Standing::Taken => true,
        _ => false,
    }
}

/// Whether some proof runs.
fn some_taken<G, O>(promises: &[Promise<G, O>]) -> bool
    ensures { MatchBool result ((n : ℕ) × (p : _) × (slice_get promises.now n ≡ Some p) × (p.standing ≡ Taken)) (NoneTaken promises.now) }
{
    let mut at = 0;
    while at < promises.len() {
        if is_taken(&promises[at]) {
            return true;
        }
        at += 1;
    }
    false
}

/// Lets the promise stand otherwise.
fn stand_otherwise<G, O: Drop>(promise: &mut Promise<G, O>, standing: Standing<O>)
    ensures { promise.new ≡ record { theory = promise.old.theory; command = promise.old.command; goal = promise.old.goal; standing = seen_standing standing } }
{
    promise.standing = standing;
}

/// Cancels the promise where its group or the one above is cancelled, unless it is settled.
fn cancel_one<G, O: Drop>(promise: &mut Promise<G, O>, groups: &Groups)
    ensures { promise.new ≡ cancelled_promise groups.now promise.old }
{
    if !groups.is_cancelled(promise.theory) {
        return;
    }
    match &promise.standing {
        Standing::Settled { .. } => {}
        _ => stand_otherwise(promise, Standing::Cancelled),
    }
}

/// Cancels all promises in cancelled groups that aren't settled.
fn cancel_all<G, O: Drop>(promises: &mut [Promise<G, O>], groups: &Groups)
    ensures { promises.new ≡ map (cancelled_promise groups.now) promises.old }
{
    for i in 0..promises.len() {
        cancel_one(&mut promises[i], groups);
    }
}

impl<G: Drop, O: Drop> Promises<G, O> {
    /// No promise.
    pub fn new(list: Vec<Promise<G, O>>) -> Promises<G, O>
        requires { list.items ≡ [] }
        ensures { result ≡ [] }
    {
        Promises { list, cursor: 0 }
    }

    /// How many there are.
    pub fn count(&self) -> u32
        ensures { result ≡ length self.now }
    {
        self.list.len() as u32
    }

    /// The promise of this number.
    pub fn at(&self, number: u32) -> &Promise<G, O>
        requires { number < length self.now }
        ensures { slice_get self.now number ≡ Some result.now }
    {
        &self.list[number as usize]
    }

    /// Whether the promise of this number is cancelled.
    pub fn is_cancelled(&self, number: u32) -> bool
        requires { number < length self.now }
        ensures { result ≡ is_cancelled_promise (slice_get self.now number) }
    {
        match &self.at(number).standing {
            Standing::Cancelled => true,
            _ => false,
        }
    }

    /// The number of the first promise that is ready, if one is.
    pub fn next_ready(&mut self) -> Option<u32>
        ensures same { self.new ≡ self.old }
        ensures found { MatchOption result (NoPromiseReadyBelow self.old (length self.old))
            (λ n. (p : _) × (slice_get self.old n ≡ Some p) × (p.standing ≡ Ready) × NoPromiseReadyBelow self.old n) }
    {
        let at = ready_from(self.list.as_slice(), self.cursor);
        self.cursor = at;
        if at >= self.list.len() {
            return None;
        }
        Some(at as u32)
    }

    /// Whether some proof runs.
    pub fn runs(&self) -> bool
        ensures { MatchBool result ((n : ℕ) × (p : _) × (slice_get self.now n ≡ Some p) × (p.standing ≡ Taken)) (NoneTaken self.now) }
    {
        some_taken(self.list.as_slice())
    }

    /// Lets a promise stand otherwise, and not ready.
    pub fn stand(&mut self, number: u32, standing: Standing<O>)
        requires within { number < length self.old }
        requires other { seen_standing standing ≢ Ready }
        ensures { self.new ≡ with_standing self.old number (seen_standing standing) }
    {
        stand_otherwise(&mut self.list[number as usize], standing);
    }

    /// Cancels all promises in cancelled groups that aren't settled.
    pub fn cancel(&mut self, groups: &Groups)
        ensures { self.new ≡ map (cancelled_promise groups.now) self.old }
    {
        cancel_all(self.list.as_mut_slice(), groups);
    }

    /// Cancels the promise of this number, if there is one, where its group or the one above is cancelled, unless it is settled.
    fn cancel_at(&mut self, number: u32, groups: &Groups)
        ensures { self.new ≡ changed_at (cancelled_promise groups.now) self.old number }
    {
        if number as usize >= self.list.len() {
            return;
        }
        cancel_one(&mut self.list[number as usize], groups);
    }

    /// Cancels those promises of these numbers in cancelled groups that aren't settled.
    pub fn cancel_listed(&mut self, numbers: &[u32], groups: &Groups)
        ensures { self.new ≡ all_changed (cancelled_promise groups.now) self.old numbers.now }
    {
        for number in numbers {
            self.cancel_at(*number, groups);
        }
    }

    /// One promise more, with the event that makes it, which is told the goal, and its number; an error where the numbers are
    /// used up, too. Promise and event are made where nothing fails any more, so that an error lets go of two pointers alone.
    pub fn fork<C: Drop>(
        &mut self,
        log: &mut Log<G, C, O>,
        theory: u32,
        command: u32,
        goal: Arc<G>,
        told: Arc<G>,
        cancelled: bool,
    ) -> Result<u32, AllocError>
        ensures { MatchResult result
            (λ n. (n ≡ length self.old) × (self.new ≡ self.old ++ made_promise theory command goal.value cancelled ∷ [])
            × (log.new ≡ entered log.old (Fork theory command told.value)))
            (λ _. (self.new ≡ self.old) × (log.new ≡ log.old)) }
    {
        let number = self.list.len();
        if number >= u32::MAX as usize {
            return Err(AllocError);
        }
        self.list.reserve(1)?;
        log.enter(Event::Fork {
            theory,
            command,
            goal: told,
        })?;
        self.list.push_reserved(Promise {
            theory,
            command,
            goal,
            standing: standing_of(cancelled),
        });
        Ok(number as u32)
    }
}

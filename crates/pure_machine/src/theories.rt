//! The theories of a machine: what became of each, and which are ready.
ghost use Rattle.std.specs.Prelude.{◌≡◌, ◌≢◌, ◌<◌, ◌≤◌, ◌+◌, ◌++◌, ◌^◌, ◌-◌, vec_len, ℕ, List, length, map, filter_map, option_to_list, Option, Some, None, IfOk, OnOk, MatchOption, MatchBool};
ghost use Rattle.pure_machine.specs.State.{Waiting, Running, Closed, theory_at, with_progress, waiting};
ghost use Rattle.pure_machine.specs.Seen.{seen_progress};
ghost use Rattle.pure_machine.specs.Step.{value_of as closing_value, closed_value, closed_values, IsReadyIn, NoneReadyBelow, IsShape, IsClosed};
ghost use Rattle.pure_text.specs.Lists.{Each};

use crate::parts::{Progress, Theory};
use crate::policy::Node;
use std::alloc::{AllocError, Global};
use std::marker::Model;
use std::sync::Arc;

/// The theories, each with the numbers of its parents and what became of it, and a number before which none is ready.
#[derive(Drop)]
pub(crate) struct Theories<C> {
    shape: Vec<Node>,
    list: Vec<Theory<C>>,
    cursor: u32,
}

impl<C> Model for Theories<C> {
    ghost use Rattle.std.specs.Prelude.{◌≡◌, ◌<◌, ◌^◌, ◌-◌, vec_len};
    ghost use Rattle.pure_machine.specs.Parts.{Stages};
    ghost use Rattle.pure_machine.specs.Step.{NoneReadyBelow, IsShape};

    ghost Value = { Stages C };

    ghost view = { λ t. record { shape = t.shape.items; progress = t.list.items } };

    ghost invariant = { λ t. NoneReadyBelow t.shape.items t.list.items t.cursor × (vec_len t.list ≡ vec_len t.shape) × (vec_len t.list < 2 ^ 32 - 1) × IsShape t.shape.items };
}

/// The value that closed a theory, if one did.
fn value_of<C>(theory: &Theory<C>) -> Option<&Arc<C>>
    ensures { MatchOption result (closing_value theory.now ≡ None) (λ v. closing_value theory.now ≡ Some v.now.value) }
{
    match &theory.progress {
        Progress::Closed { value, .. } => Some(value),
        _ => None,
    }
}

/// The value that closed the theory of this number, if there is one and one did.
fn closed_value_of<C>(theories: &[Theory<C>], number: u32) -> Option<&Arc<C>>
    ensures { MatchOption result (closed_value (theory_at theories.now number) ≡ None) (λ v. closed_value (theory_at theories.now number) ≡ Some v.now.value) }
{
    if number == 0 {
        return None;
    }
    match theories.get(number as usize - 1) {
        None => None,
        Some(theory) => value_of(theory),
    }
}

/// Whether the theories of these numbers are all closed.
fn are_closed<C>(theories: &[Theory<C>], numbers: &[u32]) -> bool
    ensures { MatchBool result ((values : List C) × (closed_values theories.now numbers.now ≡ Some values)) (closed_values theories.now numbers.now ≡ None) }
{
    for number in numbers {
        match closed_value_of(theories, *number) {
            None => return false,
            Some(_) => {}
        }
    }
    true
}

/// The values that closed the theories of these numbers, which are all closed.
fn values_of<C: Drop>(
    alloc: Global,
    theories: &[Theory<C>],
    numbers: &[u32],
) -> Result<Vec<Arc<C>>, AllocError>
    requires { closed_values theories.now numbers.now ≢ None }
    ensures { IfOk result (λ values. closed_values theories.now numbers.now ≡ Some (map (λ p. p.value) values.items)) }
{
    let mut values = Vec::with_capacity(alloc, numbers.len())?;
    for number in numbers {
        match closed_value_of(theories, *number) {
            None => unreachable!(),
            Some(value) => {
                let value = Arc::try_clone(value)?;
                values.push(value)?;
            }
        }
    }
    Ok(values)
}

/// Puts the value that closed the theory behind the others, if one did.
fn put_value<C: Drop>(values: &mut Vec<Arc<C>>, theory: &Theory<C>) -> Result<(), AllocError>
    ensures { OnOk result (map (λ p. p.value) values.new.items ≡ map (λ p. p.value) values.old.items ++ option_to_list (closing_value theory.now)) }
{
    if let Some(value) = value_of(theory) {
        let value = Arc::try_clone(value)?;
        values.push(value)?;
    }
    Ok(())
}

/// The values that closed theories, in their order.
fn all_values<C: Drop>(alloc: Global, theories: &[Theory<C>]) -> Result<Vec<Arc<C>>, AllocError>
    ensures { IfOk result (λ values. map (λ p. p.value) values.items ≡ filter_map closing_value theories.now) }
{
    let mut values = Vec::with_capacity(alloc, theories.len())?;
    for theory in theories {
        put_value(&mut values, theory)?;
    }
    Ok(values)
}

/// Whether the theory waits.
fn waits<C>(theory: &Theory<C>) -> bool
    ensures { MatchBool result (theory.now ≡ Waiting) (theory.now ≢ Waiting) }
{
    match &theory.progress {
        Progress::Waiting => true,
        _ => false,
    }
}

/// Whether the theory of this number is ready.
fn is_ready<C>(shape: &[Node], theories: &[Theory<C>], number: u32) -> bool
    ensures { MatchBool result ((cs : List C) × IsReadyIn shape.now theories.now number cs) ((cs : List C) → ¬ IsReadyIn shape.now theories.now number cs) }
{
    if number == 0 {
        return false;
    }
    let place = number as usize - 1;
    match (theories.get(place), shape.get(place)) {
        (Some(theory), Some(node)) => waits(theory)
            && are_closed(theories, node.parents.as_slice()),
        _ => false,
    }
}

/// The number of the first theory that is ready, before which from this number on none is; above all where none is.
fn ready_from<C>(shape: &[Node], theories: &[Theory<C>], from: u32) -> u32
    requires before { NoneReadyBelow shape.now theories.now from }
    requires fits { length theories.now + 1 < 2 ^ 32 }
    ensures below { NoneReadyBelow shape.now theories.now result }
    ensures at { result ≤ length theories.now → (cs : List C) × IsReadyIn shape.now theories.now result cs }
{
    let mut at = from;
    while at as usize <= theories.len() {
        if is_ready(shape, theories, at) {
            return at;
        }
        at += 1;
    }
    at
}

/// Whether a theory runs.
fn is_running<C>(theory: &Theory<C>) -> bool
    ensures { MatchBool result ((forks : ℕ) × (theory.now ≡ Running forks)) ((forks : ℕ) → theory.now ≢ Running forks) }
{
    match &theory.progress {
        Progress::Running { .. } => true,
        _ => false,
    }
}

/// Whether some theory runs.
fn some_runs<C>(theories: &[Theory<C>]) -> bool
    ensures { MatchBool result ((i : ℕ) × (k : ℕ) × (theory_at theories.now i ≡ Some (Running k))) ((i k : ℕ) → theory_at theories.now i ≢ Some (Running k)) }
{
    let mut at = 0;
    while at < theories.len() {
        if is_running(&theories[at]) {
            return true;
        }
        at += 1;
    }
    false
}

/// Whether some theory runs; where none does and none is ready, all are closed.
fn some_runs_or_all_closed<C>(shape: &[Node], theories: &[Theory<C>]) -> bool
    requires formed { IsShape shape.now }
    requires same { length theories.now ≡ length shape.now }
    ensures { MatchBool result ((i : ℕ) × (k : ℕ) × (theory_at theories.now i ≡ Some (Running k)))
        (((i : ℕ) (cs : List C) → ¬ IsReadyIn shape.now theories.now i cs) → Each IsClosed theories.now) }
{
    let _ = shape;
    if some_runs(theories) {
        return true;
    }
    false
}

/// The theories of the shape, each of which waits.
fn all_waiting<C: Drop>(alloc: Global, shape: &[Node]) -> Result<Vec<Theory<C>>, AllocError>
    ensures { IfOk result (λ list. list.items ≡ waiting shape.now) }
{
    let mut list = Vec::with_capacity(alloc, shape.len())?;
    for node in shape {
        let _ = node;
        list.push(Theory {
            progress: Progress::Waiting,
        })?;
    }
    Ok(list)
}

/// Lets the theory be so far.
fn set_progress<C: Drop>(theory: &mut Theory<C>, progress: Progress<C>)
    ensures { theory.new ≡ seen_progress progress }
{
    theory.progress = progress;
}

impl<C: Drop> Theories<C> {
    /// The theories of the shape, each of which waits.
    pub fn open(shape: Vec<Node>) -> Result<Theories<C>, AllocError>
        requires formed { IsShape shape.items }
        requires few { vec_len shape < 2 ^ 32 - 1 }
        ensures { IfOk result (λ t. t ≡ record { shape = shape.items; progress = waiting shape.items }) }
    {
        let list = all_waiting(*shape.allocator(), shape.as_slice())?;
        Ok(Theories {
            shape,
            list,
            cursor: 0,
        })
    }

    /// Where memory for it comes from.
    pub fn alloc(&self) -> Global {
        *self.shape.allocator()
    }

    /// The number of the first theory that is ready, if one is.
    pub fn next_ready(&mut self) -> Option<u32>
        ensures same { self.new ≡ self.old }
        ensures found { MatchOption result ((i : ℕ) (cs : List C) → ¬ IsReadyIn self.old.shape self.old.progress i cs)
            (λ i. (cs : List C) × IsReadyIn self.old.shape self.old.progress i cs × NoneReadyBelow self.old.shape self.old.progress i) }
    {
        let at = ready_from(self.shape.as_slice(), self.list.as_slice(), self.cursor);
        self.cursor = at;
        if at as usize > self.list.len() {
            return None;
        }
        Some(at)
    }

    /// The values that closed the parents of a theory that is ready.
    pub fn parents(&self, number: u32) -> Result<Vec<Arc<C>>, AllocError>
        requires { (cs : List C) × IsReadyIn self.now.shape self.now.progress number cs }
        ensures { IfOk result (λ values. IsReadyIn self.now.shape self.now.progress number (map (λ p. p.value) values.items)) }
    {
        let node = &self.shape.as_slice()[number as usize - 1];
        values_of(self.alloc(), self.list.as_slice(), node.parents.as_slice())
    }

    /// How many forks the theory has made, if it runs.
    pub fn forks(&self, number: u32) -> Option<u32>
        ensures { MatchOption result ((k : ℕ) → theory_at self.now.progress number ≢ Some (Running k)) (λ k. theory_at self.now.progress number ≡ Some (Running k)) }
    {
        if number == 0 {
            return None;
        }
        match self.list.as_slice().get(number as usize - 1) {
            None => None,
            Some(theory) => forks_of(theory),
        }
    }

    /// The value that closed a theory, if one did.
    pub fn value(&self, number: u32) -> Option<&C>
        ensures { MatchOption result (closed_value (theory_at self.now.progress number) ≡ None) (λ v. closed_value (theory_at self.now.progress number) ≡ Some v.now) }
    {
        match closed_value_of(self.list.as_slice(), number) {
            None => None,
            Some(value) => Some(&**value),
        }
    }

    /// The values that closed theories, in their order.
    pub fn values(&self) -> Result<Vec<Arc<C>>, AllocError>
        ensures { IfOk result (λ values. map (λ p. p.value) values.items ≡ filter_map closing_value self.now.progress) }
    {
        all_values(self.alloc(), self.list.as_slice())
    }

    /// Whether some theory runs; where none does and none is ready, all are closed.
    pub fn runs(&self) -> bool
        ensures { MatchBool result ((i : ℕ) × (k : ℕ) × (theory_at self.now.progress i ≡ Some (Running k)))
            (((i : ℕ) (cs : List C) → ¬ IsReadyIn self.now.shape self.now.progress i cs) → Each IsClosed self.now.progress) }
    {
        some_runs_or_all_closed(self.shape.as_slice(), self.list.as_slice())
    }

    /// Lets a theory run, after so many forks.
    pub fn run(&mut self, number: u32, forks: u32)
        requires low { 0 < number }
        requires high { number ≤ length self.old.progress }
        ensures { self.new ≡ record { shape = self.old.shape; progress = with_progress self.old.progress number (Running forks) } }
    {
        set_progress(
            &mut self.list[number as usize - 1],
            Progress::Running { forks },
        );
    }

    /// Closes a theory by a value.
    pub fn close(&mut self, number: u32, forks: u32, value: Arc<C>)
        requires low { 0 < number }
        requires high { number ≤ length self.old.progress }
        ensures { self.new ≡ record { shape = self.old.shape; progress = with_progress self.old.progress number (Closed forks value.value) } }
    {
        self.cursor = 0;
        set_progress(
            &mut self.list[number as usize - 1],
            Progress::Closed { forks, value },
        );
    }
}

/// How many forks the theory has made, if it runs.
fn forks_of<C>(theory: &Theory<C>) -> Option<u32>
    ensures { MatchOption result ((k : ℕ) → theory.now ≢ Running k) (λ k. theory.now ≡ Running k) }
{
    match &theory.progress {
        Progress::Running { forks } => Some(*forks),
        _ => None,
    }
}

//! The state machine.
ghost use Rattle.std.specs.Prelude.{◌≡◌, ◌<◌, ◌-◌, ◌^◌, ◌++◌, [], ℕ, List, length, map, filter_map, vec_len, false, Some, None, IfOk, MatchResult, MatchOption, OnOk, slice_get};
ghost use Rattle.pure_machine.specs.State.{Running, Fork, CloseTheory, Deliver, Stop, Marks, theory_at, opened, waiting, unmarked, with_cancelled};
ghost use Rattle.pure_machine.specs.Parts.{whole};
ghost use Rattle.pure_machine.specs.Policy.{due, due_one};
ghost use Rattle.pure_machine.specs.Step.{stops, after, value_of as closing_value, closed_value, cancelled_by, is_cancelled_promise, IsNextTheory, IsNothingReady, NoTheoryReady, IsShape};
ghost use Rattle.pure_machine.specs.Calls.{Takes, delivered_as, polled_as, is_in_cancelled, count_cancelled};

use crate::answers::{Delivered, Polled, Task};
use crate::grouped::Grouped;
use crate::log::Log;
use crate::parts::{Event, Promise, Standing};
use crate::policy::{Cancel, Group, Node, Policy};
use crate::schedule::Schedule;
use crate::theories::Theories;
use std::alloc::{AllocError, Global};
use std::marker::Model;
use std::sync::Arc;

/// A state, which contracts see as such.
#[derive(Drop)]
pub struct Machine<G, C, O> {
    theories: Theories<C>,
    promises: Grouped<G, O>,
    policy: Schedule,
    kept: usize,
    stopped: bool,
    log: Log<G, C, O>,
}

impl<G, C, O> Model for Machine<G, C, O> {
    ghost use Rattle.pure_machine.specs.State.{State};
    ghost use Rattle.pure_machine.specs.Parts.{whole};

    ghost Value = { State G C O };

    ghost view = { λ m. whole m.theories m.promises.list m.promises.marks m.policy m.kept m.stopped m.log };
}

/// One group more where the cancellation comes when so many deliveries have been kept.
fn add_if_due(groups: &mut Vec<Group>, cancel: Cancel, kept: usize) -> Result<(), AllocError>
    ensures { OnOk result (groups.new.items ≡ groups.old.items ++ due_one cancel kept) }
{
    if cancel.after as usize == kept {
        groups.push(cancel.group)?;
    }
    Ok(())
}

/// One group more for each that the list cancels when so many deliveries have been kept.
fn add_due(groups: &mut Vec<Group>, cancels: &[Cancel], kept: usize) -> Result<(), AllocError>
    ensures { OnOk result (groups.new.items ≡ groups.old.items ++ due cancels.now kept) }
{
    for cancel in cancels {
        add_if_due(groups, *cancel, kept)?;
    }
    Ok(())
}

/// The groups that are cancelled when a delivery is kept, which makes so many.
fn cancelled_groups(
    alloc: Global,
    policy: &Schedule,
    kept: usize,
    fault: bool,
) -> Result<Vec<Group>, AllocError>
    ensures { IfOk result (λ groups. groups.items ≡ cancelled_by policy.now kept fault) }
{
    let mut groups = Vec::new(alloc);
    if policy.fail_fast() && fault {
        groups.push(Group::Session)?;
    }
    add_due(&mut groups, policy.at(kept), kept)?;
    Ok(groups)
}

/// For each theory of the shape that its group isn't cancelled.
fn all_unmarked(alloc: Global, shape: &[Node]) -> Result<Vec<bool>, AllocError>
    ensures { IfOk result (λ marks. record { session = false; theories = marks.items } ≡ unmarked shape.now) }
{
    let mut marks = Vec::with_capacity(alloc, shape.len())?;
    for node in shape {
        let _ = node;
        marks.push(false)?;
    }
    Ok(marks)
}

/// No promise, of the theories of the shape, of which no group is cancelled.
fn no_promises<G: Drop, O: Drop>(alloc: Global, shape: &[Node]) -> Result<Grouped<G, O>, AllocError>
    ensures { IfOk result (λ g. g ≡ record { list = []; marks = unmarked shape.now }) }
{
    let marks = all_unmarked(alloc, shape)?;
    Grouped::open(alloc, marks)
}

/// The groups that are cancelled at the opening.
fn due_at_once(alloc: Global, policy: &Schedule) -> Result<Vec<Group>, AllocError>
    ensures { IfOk result (λ groups. groups.items ≡ due policy.now.cancels 0) }
{
    let mut groups = Vec::new(alloc);
    add_due(&mut groups, policy.at(0), 0)?;
    Ok(groups)
}

impl<G: Drop, C: Drop, O: Drop> Machine<G, C, O> {
    /// The state at the opening: all theories wait, there is no promise, and the groups whose number is 0 are cancelled.
    pub fn open(
        alloc: Global,
        shape: Vec<Node>,
        policy: Policy,
        workers: u32,
    ) -> Result<Machine<G, C, O>, AllocError>
        requires formed { IsShape shape.items }
        requires few { vec_len shape < 2 ^ 32 - 1 }
        ensures { IfOk result (λ m. m ≡ opened (record { shape = shape.items; policy = policy; workers = workers })) }
    {
        let schedule = Schedule::new(alloc, policy)?;
        let due = due_at_once(alloc, &schedule)?;
        let mut machine = Machine::fresh(alloc, shape, schedule, workers)?;
        machine.cancel(due.as_slice());
        Ok(machine)
    }

    /// The state in which all theories wait, there is no promise, and no group is cancelled.
    fn fresh(
        alloc: Global,
        shape: Vec<Node>,
        policy: Schedule,
        workers: u32,
    ) -> Result<Machine<G, C, O>, AllocError>
        requires formed { IsShape shape.items }
        requires few { vec_len shape < 2 ^ 32 - 1 }
        ensures { IfOk result (λ m. m ≡ whole (record { shape = shape.items; progress = waiting shape.items }) [] (unmarked shape.items) policy 0 false (record { workers = workers; events = [] })) }
    {
        let log = Log::open(alloc, workers)?;
        let promises = no_promises(alloc, shape.as_slice())?;
        let theories = Theories::open(shape)?;
        Ok(Machine {
            theories,
            promises,
            policy,
            kept: 0,
            stopped: false,
            log,
        })
    }

    /// Whether the work was stopped.
    pub fn stopped(&self) -> bool
        ensures { result ≡ self.now.stopped }
    {
        self.stopped
    }

    /// How many promises there are.
    pub fn count(&self) -> u32
        ensures { result ≡ length self.now.promises }
    {
        self.promises.count()
    }

    /// The value that closed a theory, if one did.
    pub fn closed(&self, theory: u32) -> Option<&C>
        ensures { MatchOption result (closed_value (theory_at self.now.theories theory) ≡ None) (λ v. closed_value (theory_at self.now.theories theory) ≡ Some v.now) }
    {
        self.theories.value(theory)
    }

    /// The values that closed theories, in load order, each shared with the machine.
    ///
    /// # Errors
    ///
    /// Want of memory alone.
    pub fn values(&self) -> Result<Vec<Arc<C>>, AllocError>
        ensures { IfOk result (λ values. map (λ p. p.value) values.items ≡ filter_map closing_value self.now.theories) }
    {
        self.theories.values()
    }

    /// The promise of this number.
    pub fn promise(&self, number: u32) -> &Promise<G, O>
        requires { number < length self.now.promises }
        ensures { slice_get self.now.promises number ≡ Some result.now }
    {
        self.promises.at(number)
    }

    /// Whether the work was stopped, else whether the promise's group or the one above is cancelled.
    pub fn poll(&self, number: u32) -> Polled
        requires { number < length self.now.promises }
        ensures { result ≡ polled_as self.now.stopped (is_in_cancelled self.now (slice_get self.now.promises number)) }
    {
        if self.stopped {
            return Polled::Stopped;
        }
        let promise = self.promises.at(number);
        if self.promises.is_theory_cancelled(promise.theory) {
            return Polled::Cancelled;
        }
        Polled::Go
    }

    /// How many groups are cancelled.
    pub fn cancellations(&self) -> usize
        ensures { result ≡ count_cancelled self.now.cancelled }
    {
        self.promises.cancellations()
    }

    /// Stops the work, which takes no memory.
    pub fn stop(&mut self)
        requires { stops self.old.history < self.old.opening.workers }
        ensures { self.new ≡ after self.old Stop }
    {
        self.log.stop();
        self.stopped = true;
    }

    /// A promise more, of a command of a theory that runs.
    pub fn fork(&mut self, theory: u32, command: u32, goal: G) -> Result<u32, AllocError>
        requires { (k : ℕ) × (theory_at self.old.theories theory ≡ Some (Running k)) }
        ensures { MatchResult result (λ n. (n ≡ length self.old.promises) × (self.new ≡ after self.old (Fork theory command goal))) (λ _. self.new ≡ self.old) }
    {
        let forks = self.forks(theory);
        if forks == u32::MAX {
            return Err(AllocError);
        }
        let goal = Arc::new(self.theories.alloc(), goal)?;
        let told = Arc::try_clone(&goal)?;
        let cancelled = self.promises.is_theory_cancelled(theory);
        let number = self
            .promises
            .fork(&mut self.log, theory, command, goal, told, cancelled)?;
        self.theories.run(theory, forks + 1);
        Ok(number)
    }

    /// How many forks a theory that runs has made.
    fn forks(&self, theory: u32) -> u32
        requires { (k : ℕ) × (theory_at self.now.theories theory ≡ Some (Running k)) }
        ensures { theory_at self.now.theories theory ≡ Some (Running result) }
    {
        match self.theories.forks(theory) {
            None => unreachable!(),
            Some(forks) => forks,
        }
    }

    /// Closes a theory that runs.
    pub fn close_theory(&mut self, theory: u32, closed: C) -> Result<(), AllocError>
        requires { (k : ℕ) × (theory_at self.old.theories theory ≡ Some (Running k)) }
        ensures { MatchResult result (λ _. self.new ≡ after self.old (CloseTheory theory closed)) (λ _. self.new ≡ self.old) }
    {
        let forks = self.forks(theory);
        let value = Arc::new(self.theories.alloc(), closed)?;
        let told = Arc::try_clone(&value)?;
        self.log.enter(Event::CloseTheory {
            number: theory,
            value: told,
        })?;
        self.theories.close(theory, forks, value);
        Ok(())
    }

    /// Keeps the outcome of a proof, unless its promise is cancelled.
    pub fn deliver(&mut self, number: u32, outcome: O, fault: bool) -> Result<Delivered, AllocError>
        requires { number < length self.old.promises }
        ensures { MatchResult result
            (λ d. (d ≡ delivered_as (is_cancelled_promise (slice_get self.old.promises number))) × (self.new ≡ after self.old (Deliver number outcome fault)))
            (λ _. self.new ≡ self.old) }
    {
        if self.kept == usize::MAX {
            return Err(AllocError);
        }
        let kept = self.kept + 1;
        let groups = cancelled_groups(self.theories.alloc(), &self.policy, kept, fault)?;
        let outcome = Arc::new(self.theories.alloc(), outcome)?;
        let told = Arc::try_clone(&outcome)?;
        self.log.enter(Event::Deliver {
            number,
            outcome: told,
            fault,
        })?;
        if self.promises.is_cancelled(number) {
            return Ok(Delivered::Cancelled);
        }
        self.promises.stand(number, Standing::Settled { outcome });
        self.kept = kept;
        self.cancel(groups.as_slice());
        Ok(Delivered::Kept)
    }

    /// Cancels groups, and their promises that aren't settled.
    fn cancel(&mut self, groups: &[Group])
        ensures { self.new ≡ with_cancelled self.old groups.now }
    {
        self.promises.cancel(groups);
    }

    /// What is there to do.
    pub fn take(&mut self) -> Result<Task<G, C>, AllocError>
        ensures { MatchResult result (λ task. Takes self.old self.new task) (λ _. self.new ≡ self.old) }
    {
        if self.stopped {
            return Ok(Task::Stopped);
        }
        match self.theories.next_ready() {
            None => self.take_proof(),
            Some(index) => self.take_theory(index),
        }
    }

    /// Takes the first theory that is ready.
    fn take_theory(&mut self, index: u32) -> Result<Task<G, C>, AllocError>
        requires going { self.old.stopped ≡ false }
        requires next { (cs : _) × IsNextTheory self.old index cs }
        ensures { MatchResult result (λ task. Takes self.old self.new task) (λ _. self.new ≡ self.old) }
    {
        let parents = self.theories.parents(index)?;
        self.log.enter(Event::TakeTheory { number: index })?;
        self.theories.run(index, 0);
        Ok(Task::Theory { index, parents })
    }

    /// Where no theory is ready, takes the first proof that is.
    fn take_proof(&mut self) -> Result<Task<G, C>, AllocError>
        requires going { self.old.stopped ≡ false }
        requires none { NoTheoryReady self.old }
        ensures { MatchResult result (λ task. Takes self.old self.new task) (λ _. self.new ≡ self.old) }
    {
        let Some(number) = self.promises.next_ready() else {
            return Ok(self.reading());
        };
        let goal = Arc::try_clone(&self.promises.at(number).goal)?;
        self.log.enter(Event::TakeProof { number })?;
        self.promises.stand(number, Standing::Taken);
        Ok(Task::Proof { number, goal })
    }

    /// Where nothing is ready, whether something runs.
    fn reading(&self) -> Task<G, C>
        requires going { self.now.stopped ≡ false }
        requires nothing { IsNothingReady self.now }
        ensures { Takes self.now self.now result }
    {
        if self.theories.runs() {
            return Task::Idle;
        }
        if self.promises.runs() {
            return Task::Idle;
        }
        Task::Finished
    }
}

//! Promises with their groups.
ghost use Rattle.std.specs.Prelude.{◌≡◌, ◌≢◌, ◌<◌, ◌++◌, [], ◌∷◌, ℕ, length, false, Some, IfOk, MatchBool, MatchOption, MatchResult, slice_get, count_by};
ghost use Rattle.pure_machine.specs.Calls.{count_cancelled};
ghost use Rattle.pure_machine.specs.State.{Fork, Ready, Taken, with_standing, is_theory_cancelled, marked};
ghost use Rattle.pure_machine.specs.Step.{NoPromiseReadyBelow, is_cancelled_promise};
ghost use Rattle.pure_machine.specs.Seen.{seen_standing};
ghost use Rattle.pure_machine.specs.Parts.{entered, made_promise, NoneTaken, MayStand, regrouped, all_regrouped};

use crate::buckets::Buckets;
use crate::groups::Groups;
use crate::log::Log;
use crate::parts::{Promise, Standing};
use crate::policy::Group;
use crate::promises::Promises;
use std::alloc::{AllocError, Global};
use std::marker::Model;
use std::sync::Arc;

/// Promises, their groups, and the numbers of the promises in buckets by theory, so that a group is cancelled without a look at the promises of others. A number there without a promise of the theory does no harm.
#[derive(Drop)]
pub(crate) struct Grouped<G, O> {
    promises: Promises<G, O>,
    groups: Groups,
    members: Buckets<u32>,
}

impl<G, O> Model for Grouped<G, O> {
    ghost use Rattle.pure_machine.specs.Parts as seen;
    ghost use Rattle.pure_machine.specs.Parts.{AreFixed, AreListed};

    ghost Value = { seen.Grouped G O };

    ghost view = { λ g. record { list = g.promises; marks = g.groups } };

    ghost invariant = { λ g. AreFixed g.groups g.promises × AreListed g.members g.promises };
}

impl<G: Drop, O: Drop> Grouped<G, O> {
    /// No promise, of theories whose groups these marks are, of which none is set.
    pub fn open(alloc: Global, marks: Vec<bool>) -> Result<Grouped<G, O>, AllocError>
        requires { count_by (λ mark. mark) marks.items ≡ 0 }
        ensures { IfOk result (λ g. g ≡ record { list = []; marks = record { session = false; theories = marks.items } }) }
    {
        let members = Buckets::new(alloc, marks.len())?;
        Ok(Grouped {
            promises: Promises::new(Vec::new(alloc)),
            groups: Groups::new(marks),
            members,
        })
    }

    /// How many promises there are.
    pub fn count(&self) -> u32
        ensures { result ≡ length self.now.list }
    {
        self.promises.count()
    }

    /// The promise of this number.
    pub fn at(&self, number: u32) -> &Promise<G, O>
        requires { number < length self.now.list }
        ensures { slice_get self.now.list number ≡ Some result.now }
    {
        self.promises.at(number)
    }

    /// Whether the promise of this number is cancelled.
    pub fn is_cancelled(&self, number: u32) -> bool
        requires { number < length self.now.list }
        ensures { result ≡ is_cancelled_promise (slice_get self.now.list number) }
    {
        self.promises.is_cancelled(number)
    }

    /// Whether the promises of the theory are in a cancelled group.
    pub fn is_theory_cancelled(&self, theory: u32) -> bool
        ensures { result ≡ is_theory_cancelled self.now.marks theory }
    {
        self.groups.is_cancelled(theory)
    }

    /// How many groups are cancelled.
    pub fn cancellations(&self) -> usize
        ensures { result ≡ count_cancelled self.now.marks }
    {
        self.groups.count()
    }

    /// The number of the first promise that is ready, if one is.
    pub fn next_ready(&mut self) -> Option<u32>
        ensures same { self.new ≡ self.old }
        ensures found { MatchOption result (NoPromiseReadyBelow self.old.list (length self.old.list))
            (λ n. (p : _) × (slice_get self.old.list n ≡ Some p) × (p.standing ≡ Ready) × NoPromiseReadyBelow self.old.list n) }
    {
        self.promises.next_ready()
    }

    /// Whether some proof runs.
    pub fn runs(&self) -> bool
        ensures { MatchBool result ((n : ℕ) × (p : _) × (slice_get self.now.list n ≡ Some p) × (p.standing ≡ Taken)) (NoneTaken self.now.list) }
    {
        self.promises.runs()
    }

    /// Lets a promise stand otherwise, and not ready.
    pub fn stand(&mut self, number: u32, standing: Standing<O>)
        requires within { number < length self.old.list }
        requires other { seen_standing standing ≢ Ready }
        requires allowed { MayStand self.old.list number (seen_standing standing) }
        ensures { self.new ≡ record { list = with_standing self.old.list number (seen_standing standing); marks = self.old.marks } }
    {
        self.promises.stand(number, standing);
    }

    /// One promise more, cancelled where its group is, with the event that makes it, and its number; an error where the numbers are used up, too.
    pub fn fork<C: Drop>(
        &mut self,
        log: &mut Log<G, C, O>,
        theory: u32,
        command: u32,
        goal: Arc<G>,
        told: Arc<G>,
        cancelled: bool,
    ) -> Result<u32, AllocError>
        requires { cancelled ≡ is_theory_cancelled self.old.marks theory }
        ensures { MatchResult result (λ n. (n ≡ length self.old.list)
            × (self.new ≡ record { list = self.old.list ++ made_promise theory command goal.value cancelled ∷ []; marks = self.old.marks })
            × (log.new ≡ entered log.old (Fork theory command told.value)))
            (λ _. (self.new ≡ self.old) × (log.new ≡ log.old)) }
    {
        let next = self.promises.count();
        self.members.put(theory as usize, next)?;
        let number = self
            .promises
            .fork(log, theory, command, goal, told, cancelled)?;
        Ok(number)
    }

    /// Cancels a group, and its promises that aren't settled.
    fn cancel_one(&mut self, group: Group)
        ensures { self.new ≡ regrouped self.old (marked self.old.marks group) }
    {
        if !self.groups.is_new(group) {
            return;
        }
        self.groups.cancel_one(group);
        match group {
            Group::Session => self.promises.cancel(&self.groups),
            Group::Theory { index } => self
                .promises
                .cancel_listed(self.members.of(index as usize), &self.groups),
        }
    }

    /// Cancels groups, and their promises that aren't settled.
    pub fn cancel(&mut self, groups: &[Group])
        ensures { self.new ≡ all_regrouped self.old groups.now }
    {
        for group in groups {
            self.cancel_one(*group);
        }
    }
}

//! Which groups of promises are cancelled.
ghost use Rattle.std.specs.Prelude.{◌≡◌, false, count_by};
ghost use Rattle.pure_machine.specs.State.{is_theory_cancelled, marked};
ghost use Rattle.pure_machine.specs.Calls.{count_cancelled};
ghost use Rattle.pure_machine.specs.Parts.{is_unmarked, is_new};

use crate::policy::Group;
use std::marker::Model;

/// Whether the session's group is cancelled, and each theory's own; and of how many theories it is.
#[derive(Drop)]
pub(crate) struct Groups {
    session: bool,
    theories: Vec<bool>,
    count: usize,
}

impl Model for Groups {
    ghost use Rattle.std.specs.Prelude.{◌≡◌, count_by};
    ghost use Rattle.pure_machine.specs.State.{Marks};

    ghost Value = { Marks };

    ghost view = { λ g. record { session = g.session; theories = g.theories.items } };

    ghost invariant = { λ g. g.count ≡ count_by (λ mark. mark) g.theories.items };
}

impl Groups {
    /// The groups of so many theories, of which none is marked.
    pub fn new(theories: Vec<bool>) -> Groups
        requires { count_by (λ mark. mark) theories.items ≡ 0 }
        ensures { result ≡ record { session = false; theories = theories.items } }
    {
        Groups {
            session: false,
            theories,
            count: 0,
        }
    }

    /// How many groups are cancelled.
    pub fn count(&self) -> usize
        ensures { result ≡ count_cancelled self.now }
    {
        if !self.session {
            return self.count;
        }
        self.count + 1
    }

    /// Whether the promises of the theory are in a cancelled group.
    pub fn is_cancelled(&self, theory: u32) -> bool
        ensures { result ≡ is_theory_cancelled self.now theory }
    {
        if self.session {
            return true;
        }
        if theory == 0 {
            return false;
        }
        match self.theories.as_slice().get(theory as usize - 1) {
            None => false,
            Some(mark) => *mark,
        }
    }

    /// Whether to cancel the group changes which groups are cancelled.
    pub fn is_new(&self, group: Group) -> bool
        ensures { result ≡ is_new self.now group }
    {
        match group {
            Group::Session => !self.session,
            Group::Theory { index } => is_unmarked(self.theories.as_slice(), index),
        }
    }

    /// Cancels a group.
    pub fn cancel_one(&mut self, group: Group)
        ensures { self.new ≡ marked self.old group }
    {
        match group {
            Group::Session => self.session = true,
            Group::Theory { index } => {
                if is_unmarked(self.theories.as_slice(), index) {
                    self.theories[index as usize - 1] = true;
                    self.count += 1;
                }
            }
        }
    }
}

/// Whether there is such a theory and its own group isn't cancelled.
fn is_unmarked(marks: &[bool], theory: u32) -> bool
    ensures { result ≡ is_unmarked marks.now theory }
{
    if theory == 0 {
        return false;
    }
    match marks.get(theory as usize - 1) {
        None => false,
        Some(mark) => !*mark,
    }
}

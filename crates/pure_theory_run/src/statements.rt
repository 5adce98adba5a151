//! The statements of all theories, one after the other.
ghost use Rattle.std.specs.Prelude.{◌≡◌, ◌<◌, ℕ, suc, List, length, IfOk};
ghost use Rattle.pure_session_meaning.specs.Declare.Notes as notes;
ghost use Rattle.pure_theory_run.specs.Outline.{outlines};
ghost use Rattle.pure_theory_run.specs.Parents.{HasParents};
ghost use Rattle.pure_theory_run.specs.Runs.{IsRunOf};
ghost use Rattle.pure_theory_run.specs.Sessions.{IsTaken, RanOut, HaveClosed, AreSaid};

use crate::checker::Checker;
use crate::closed::Closed;
use crate::numbers::index_behind;
use crate::parents::all_left_by;
use crate::run::{Run, Turn};
use pure_session_meaning::declare::Duty;
use pure_theory_tables::shared;
use std::alloc::AllocError;
use std::sync::Arc;

/// What the statements of a session leave: what each theory left, in load order, and all lemmas and haves that they bound, in order of their labels.
#[derive(Drop)]
pub struct Statements {
    pub closed: Vec<Arc<Closed>>,
    pub duties: Vec<Duty>,
}

impl Checker {
    /// One turn of the run, whose lemma or have, if it binds one, is put behind the others; what the theory leaves, where it closes.
    fn take_turn(&self, run: &mut Run, duties: &mut Vec<Duty>) -> Result<Option<Closed>, AllocError>
        requires { (index : ℕ) × (past : List notes.Note) × IsRunOf self.now.texts self.now.theories index past run.old }
        ensures { IfOk result (λ closed. (index : ℕ) (past : List notes.Note) → IsRunOf self.now.texts self.now.theories index past run.old → IsTaken self.now.texts self.now.theories index past run.old run.new duties.old.items duties.new.items closed) }
    {
        match self.command(run)? {
            Turn::Declared => Ok(None),
            Turn::Forked { goal, .. } => {
                duties.push(goal)?;
                Ok(None)
            }
            Turn::Closed { closed } => Ok(Some(closed)),
        }
    }

    /// Runs the theory from what its parents left until it closes, and puts its lemmas and haves behind the others.
    fn run_theory(
        &self,
        theory: u32,
        parents: &[Arc<Closed>],
        duties: &mut Vec<Duty>,
    ) -> Result<Closed, AllocError>
        requires { HasParents self.now.texts self.now.theories theory (outlines parents.now) }
        ensures { IfOk result (RanOut self.now.texts self.now.theories theory duties.old.items duties.new.items) }
    {
        let mut run = self.begin(theory, parents)?;
        'turns: loop {
            match self.take_turn(&mut run, duties)? {
                Some(closed) => return Ok(closed),
                None => {}
            }
        }
    }

    /// What the theory at this place leaves, behind those before it.
    fn next_closed(
        &self,
        place: usize,
        closed: &[Arc<Closed>],
        duties: &mut Vec<Duty>,
    ) -> Result<Arc<Closed>, AllocError>
        requires place { place < length self.now.theories }
        requires count { length closed.now ≡ place }
        requires before { HaveClosed self.now.texts self.now.theories (outlines closed.now) duties.old.items }
        ensures { IfOk result (λ one. RanOut self.now.texts self.now.theories (suc place) duties.old.items duties.new.items one.value) }
    {
        self.is_loaded_session();
        let index = index_behind(place)?;
        let theory = self.theory(index);
        let parents = all_left_by(self.alloc, closed, theory.parents.as_slice())?;
        let one = self.run_theory(index, parents.as_slice(), duties)?;
        let one = shared(self.alloc, one)?;
        Ok(one)
    }

    /// What the theories leave, each run until it closes, in load order.
    ///
    /// # Errors
    ///
    /// Want of memory alone.
    pub fn statements(&self) -> Result<Statements, AllocError>
        ensures { IfOk result (λ s. AreSaid self.now.texts self.now.theories (outlines s.closed.items) s.duties.items) }
    {
        let mut closed = Vec::new(self.alloc);
        let mut duties = Vec::new(self.alloc);
        for place in 0..self.theories().len() {
            let one = self.next_closed(place, closed.as_slice(), &mut duties)?;
            closed.push(one)?;
        }
        Ok(Statements { closed, duties })
    }
}

//! The calls that run a proof.
ghost use Rattle.std.specs.Prelude.{◌≡◌, ◌≢◌, ◌+◌, IfOk, IfErr, OnErr, MatchOption, IsErr};
ghost use Rattle.pure_method.specs.Outcome.{IsProvable, IsOutcomeOf};
ghost use Rattle.pure_method.specs.declared.proving.Place.TheVariants as stands;
ghost use Rattle.pure_method.specs.Running.{Proves, IsBroken, IsRun, IsPlace, IsTurn, LeadsOn, StandsFirst, StopsAt, turn_shown, steps_left};

use crate::duty::theory_of;
use crate::fault::is_memory;
use crate::outcome::Outcome;
use crate::run::{Next, Run, next_of};
use pure_declare::Duty;
use pure_resolve::goal_steps::StepFault;
use pure_typ::NamesByBase;
use pure_watch::{Unwatched, Watch};
use std::alloc::{AllocError, Global};
use std::mem;

/// Where a proof stands: it runs; or no goal began with its statement; or it is broken by want of memory.
#[derive(Drop)]
pub enum Place {
    Runs { run: Run },
    Refused,
    Broken,
}

/// A proof on its way.
#[derive(Drop)]
pub struct Proving {
    place: Place,
}

/// Begins the lemma's proof.
///
/// # Errors
///
/// `AllocError` alone: a fault that comes before the first step is answered by the first call of `advance`.
pub fn start(alloc: Global, _names: &NamesByBase, duty: &Duty) -> Result<Proving, AllocError>
    requires { IsProvable _names.now duty.now }
    ensures proves { IfOk result (Proves _names.now duty.now) }
    ensures begins { IfOk result (λ proving. StandsFirst duty.now proving.place) }
    ensures unbroken { IfOk result (λ proving. ¬ IsBroken proving) }
{
    let statement = duty.fixed(alloc)?;
    match pure_resolve::start(alloc, theory_of(duty), &statement) {
        Ok(goal) => Ok(Proving {
            place: Place::Runs {
                run: Run {
                    goal,
                    at: 0,
                    number: 1,
                },
            },
        }),
        Err(fault) => {
            if is_memory(fault) {
                return Err(AllocError);
            }
            Ok(Proving {
                place: Place::Refused,
            })
        }
    }
}

/// Where a proof stands behind a step, and what comes of it where it ends.
#[derive(Drop)]
pub struct Turn {
    place: Place,
    outcome: Option<Outcome>,
}

/// Lets the place go.
fn discard(_place: Place) {}

/// The same of what a step leaves of a run.
fn turn_of(next: Next) -> Turn
    ensures { result ≡ turn_shown next }
{
    match next {
        Next::Goes { run } => Turn {
            place: Place::Runs { run },
            outcome: None,
        },
        Next::Ends { run, outcome } => Turn {
            place: Place::Runs { run },
            outcome: Some(outcome),
        },
    }
}

/// What the next step of a run leaves.
fn turn_from<W: Watch>(
    alloc: Global,
    names: &NamesByBase,
    duty: &Duty,
    run: Run,
    watch: &W,
) -> Result<Turn, AllocError>
    requires provable { IsProvable names.now duty.now }
    requires run { IsRun names.now duty.now run }
    ensures { IfOk result (IsTurn names.now duty.now (stands.Runs run)) }
{
    let next = next_of(alloc, names, duty, run, watch)?;
    Ok(turn_of(next))
}

/// What the next step leaves.
fn next_at<W: Watch>(
    alloc: Global,
    names: &NamesByBase,
    duty: &Duty,
    place: Place,
    watch: &W,
) -> Result<Turn, AllocError>
    requires provable { IsProvable names.now duty.now }
    requires place { IsPlace names.now duty.now place }
    ensures turn { IfOk result (IsTurn names.now duty.now place) }
    ensures broken { place ≡ stands.Broken → IsErr result }
{
    match place {
        Place::Broken => Err(AllocError),
        Place::Refused => Ok(Turn {
            place: Place::Refused,
            outcome: Some(Outcome::Fault {
                step: 0,
                fault: StepFault::Big,
            }),
        }),
        Place::Runs { run } => turn_from(alloc, names, duty, run, watch),
    }
}

impl Proving {
    /// The run of the proof, whose goal is that on which the next step is made; none where no goal began with the statement, or
    /// memory ran out.
    pub fn run(&self) -> Option<&Run>
        ensures { MatchOption result ((run : Run) → self.now.place ≢ stands.Runs run) (λ run. self.now.place ≡ stands.Runs run.now) }
    {
        match &self.place {
            Place::Runs { run } => Some(run),
            Place::Refused => None,
            Place::Broken => None,
        }
    }

    /// Stands at another place.
    fn enter(&mut self, place: Place)
        ensures { self.new.place ≡ place }
    {
        discard(mem::replace(&mut self.place, place));
    }

    /// Stands at a broken place, and gives the one at which it stood.
    fn leave(&mut self) -> Place
        ensures gives { result ≡ self.old.place }
        ensures broken { IsBroken self.new }
    {
        mem::replace(&mut self.place, Place::Broken)
    }

    /// Stands where a step has led, and gives what comes of the proof.
    fn go_on(&mut self, turn: Turn) -> Option<Outcome>
        ensures place { self.new.place ≡ turn.place }
        ensures outcome { result ≡ turn.outcome }
    {
        let Turn { place, outcome } = turn;
        self.enter(place);
        outcome
    }

    /// Makes one step of the proof: none exactly where steps are left and none failed, else what comes of the proof. The step
    /// leads from the state on which it is made to that of the next one.
    ///
    /// # Errors
    ///
    /// `AllocError` where memory ran out, and from then on.
    pub fn advance(
        &mut self,
        alloc: Global,
        names: &NamesByBase,
        duty: &Duty,
    ) -> Result<Option<Outcome>, AllocError>
        requires provable { IsProvable names.now duty.now }
        requires proves { Proves names.now duty.now self.old }
        ensures proves { Proves names.now duty.now self.new }
        ensures outcome { IfOk result (λ answer. MatchOption answer (steps_left duty.now self.new + 1 ≡ steps_left duty.now self.old) (IsOutcomeOf names.now duty.now)) }
        ensures step { IfOk result (λ answer. MatchOption answer (LeadsOn names.now duty.now self.old.place self.new.place) (StopsAt names.now duty.now self.old.place)) }
        ensures unbroken { IfOk result (λ _. ¬ IsBroken self.new) }
        ensures broken { OnErr result (IsBroken self.new) }
        ensures still { IsBroken self.old → IsErr result }
    {
        self.advance_while(alloc, names, duty, &Unwatched)
    }

    /// As `advance`, as long as the watch lets searches go on.
    ///
    /// # Errors
    ///
    /// `AllocError` where memory was refused, or the watch broke a search off, and from then on.
    pub fn advance_while<W: Watch>(
        &mut self,
        alloc: Global,
        names: &NamesByBase,
        duty: &Duty,
        watch: &W,
    ) -> Result<Option<Outcome>, AllocError>
        requires provable { IsProvable names.now duty.now }
        requires proves { Proves names.now duty.now self.old }
        ensures proves { Proves names.now duty.now self.new }
        ensures outcome { IfOk result (λ answer. MatchOption answer (steps_left duty.now self.new + 1 ≡ steps_left duty.now self.old) (IsOutcomeOf names.now duty.now)) }
        ensures step { IfOk result (λ answer. MatchOption answer (LeadsOn names.now duty.now self.old.place self.new.place) (StopsAt names.now duty.now self.old.place)) }
        ensures unbroken { IfOk result (λ _. ¬ IsBroken self.new) }
        ensures broken { OnErr result (IsBroken self.new) }
        ensures still { IsBroken self.old → IsErr result }
    {
        let place = self.leave();
        match next_at(alloc, names, duty, place, watch) {
            Ok(turn) => Ok(self.go_on(turn)),
            Err(error) => Err(error),
        }
    }
}

/// Runs the lemma's proof to its end.
///
/// # Errors
///
/// `AllocError` where memory ran out.
pub fn prove(alloc: Global, names: &NamesByBase, duty: &Duty) -> Result<Outcome, AllocError>
    requires { IsProvable names.now duty.now }
    ensures { IfOk result (IsOutcomeOf names.now duty.now) }
{
    let mut proving = start(alloc, names, duty)?;
    loop {
        if let Some(outcome) = proving.advance(alloc, names, duty)? {
            return Ok(outcome);
        }
    }
}

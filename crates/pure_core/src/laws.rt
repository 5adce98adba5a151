//! What legal runs keep, and that calls are steps: laws, each carried by the contract of a function that does nothing.
ghost use Rattle.pure_machine.specs.State.{State};
ghost use Rattle.pure_machine.specs.Calls.{Takes};
ghost use Rattle.pure_machine.specs.declared.answers.Task as task;
ghost use Rattle.pure_core.specs.Laws.{LegalGrows, ForksByAStep, DeliversByAStep};
ghost use Rattle.pure_core.specs.Replies.{IsTaking};

use crate::work::Work;

/// An event that may happen behind a legal run of a work makes a legal run.
pub fn legal_grows<W: Work>(work: &W)
    ensures { LegalGrows (W.shape work.now) (W.forks work.now) (W.closes work.now) (W.may work.now) (W.faults work.now) }
{
    let _ = work;
}

/// What is taken is a step, or a reading of the state.
pub fn takes_a_step<W: Work>(work: &W)
    ensures { (old new : State W.Goal W.Closed W.Outcome) (t : task.Task W.Goal W.Closed)
        → Takes old new t
        → IsTaking (W.forks work.now) (W.closes work.now) (W.may work.now) (W.faults work.now) old new t }
{
    let _ = work;
}

/// A fork that may happen, with the number that is answered, is a step.
pub fn forks_by_a_step<W: Work>(work: &W)
    ensures { ForksByAStep (W.forks work.now) (W.closes work.now) (W.may work.now) (W.faults work.now) }
{
    let _ = work;
}

/// A delivery that may happen, with its answer, is a step.
pub fn delivers_by_a_step<W: Work>(work: &W)
    ensures { DeliversByAStep (W.forks work.now) (W.closes work.now) (W.may work.now) (W.faults work.now) }
{
    let _ = work;
}

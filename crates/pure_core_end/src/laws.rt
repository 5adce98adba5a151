//! What legal runs of a work leave: laws, each carried by the contract of a function that does nothing.
ghost use Rattle.std.specs.Prelude.{◌≡◌};
ghost use Rattle.pure_machine.specs.State.{State};
ghost use Rattle.pure_core.specs.Legal.{IsLegal};
ghost use Rattle.pure_core_end.specs.Joined.{TheoriesAreJoined};
ghost use Rattle.pure_core_end.specs.Places.{AreForked, HaveSmallerNumbers};
ghost use Rattle.pure_core_end.specs.Uncancelled.{no_policy, NoneCancelled};

use pure_core::Work;

/// Where all is finished, each theory left a value that may close it, and its promises ended as their goals may.
pub fn theories_are_joined<W: Work>(work: &W)
    ensures { TheoriesAreJoined (W.shape work.now) (W.forks work.now) (W.closes work.now) (W.may work.now) (W.faults work.now) }
{
    let _ = work;
}

/// In every state of a legal run each promise is of a goal that its theory may fork after so many others under its command.
pub fn goals_are_forked<W: Work>(work: &W)
    ensures { (s : State W.Goal W.Closed W.Outcome)
        → IsLegal (W.shape work.now) (W.forks work.now) (W.closes work.now) (W.may work.now) (W.faults work.now) s
        → AreForked (W.forks work.now) s }
{
    let _ = work;
}

/// In every state of a legal run the promises of a theory's ancestors, and its own earlier ones, have smaller numbers.
pub fn earlier_numbers_are_smaller<W: Work>(work: &W)
    ensures { (s : State W.Goal W.Closed W.Outcome)
        → IsLegal (W.shape work.now) (W.forks work.now) (W.closes work.now) (W.may work.now) (W.faults work.now) s
        → HaveSmallerNumbers (W.shape work.now) s }
{
    let _ = work;
}

/// Where no policy cancels, no promise is cancelled in any state of a legal run.
pub fn nothing_is_cancelled<W: Work>(work: &W)
    ensures { (s : State W.Goal W.Closed W.Outcome)
        → IsLegal (W.shape work.now) (W.forks work.now) (W.closes work.now) (W.may work.now) (W.faults work.now) s
        → s.opening.policy ≡ no_policy → NoneCancelled s.promises }
{
    let _ = work;
}

//! That closing and stopping are steps: laws, each carried by the contract of a function that does nothing.
ghost use Rattle.pure_core_laws.specs.Steps.{ClosesByAStep, StopsByAStep};

use pure_core::Work;

/// A close that may happen is a step, and is answered nothing.
pub fn closes_by_a_step<W: Work>(work: &W)
    ensures { ClosesByAStep (W.forks work.now) (W.closes work.now) (W.may work.now) (W.faults work.now) }
{
    let _ = work;
}

/// A stop of a work that was stopped fewer times than it has workers is a step, and is answered nothing.
pub fn stops_by_a_step<W: Work>(work: &W)
    ensures { StopsByAStep (W.forks work.now) (W.closes work.now) (W.may work.now) (W.faults work.now) }
{
    let _ = work;
}

//! What numbered legal runs keep: laws, each carried by the contract of a function that does nothing.
ghost use Rattle.pure_core_runs.specs.Laws.{FrontIsNumbered, NothingIsNumbered, EntryIsNumbered, NumberedIsLegal, OwnIsJoined, FinishedEnds, FinishedStays, StoppedStays, PromiseStays, ClosedStays, NothingOpenStays, TakerIsOne, TakenIsThere, OutIsKnown, RunningIsKnown, ForkMayEnter, CloseMayEnter, DeliverMayEnter, StopMayEnter, FrontIsOrderly, OrderlyGrows, FinishedIsClosed};

use pure_core::Work;

/// A front of a numbered legal run is one.
pub fn front_is_numbered<W: Work>(work: &W)
    ensures { FrontIsNumbered (W.forks work.now) (W.closes work.now) (W.may work.now) (W.faults work.now) }
{
    let _ = work;
}

/// No event at all is a numbered legal run.
pub fn nothing_is_numbered<W: Work>(work: &W)
    ensures { NothingIsNumbered (W.forks work.now) (W.closes work.now) (W.may work.now) (W.faults work.now) }
{
    let _ = work;
}

/// An event that a seat may enter behind a numbered legal run makes one.
pub fn entry_is_numbered<W: Work>(work: &W)
    ensures { EntryIsNumbered (W.forks work.now) (W.closes work.now) (W.may work.now) (W.faults work.now) }
{
    let _ = work;
}

/// A numbered legal run leads to the state of a legal run.
pub fn numbered_is_legal<W: Work>(work: &W)
    ensures { NumberedIsLegal (W.forks work.now) (W.closes work.now) (W.may work.now) (W.faults work.now) }
{
    let _ = work;
}

/// What a seat entered in two lists of events is what it entered in one and then in the other.
pub fn own_is_joined<W: Work>(work: &W)
    ensures { OwnIsJoined W.Goal W.Closed W.Outcome }
{
    let _ = work;
}

/// From Finished on each event stops the work or delivers an outcome of a cancelled promise.
pub fn finished_ends<W: Work>(work: &W)
    ensures { FinishedEnds (W.forks work.now) (W.closes work.now) (W.may work.now) (W.faults work.now) }
{
    let _ = work;
}

/// Finished stays where no further event stops the work.
pub fn finished_stays<W: Work>(work: &W)
    ensures { FinishedStays (W.forks work.now) (W.closes work.now) (W.may work.now) (W.faults work.now) }
{
    let _ = work;
}

/// Once stopped, the work stays so; and it is stopped exactly where some event stopped it.
pub fn stopped_stays<W: Work>(work: &W)
    ensures { StoppedStays W.Goal W.Closed W.Outcome }
{
    let _ = work;
}

/// A promise keeps its theory, command and goal, and one that is settled or cancelled stays so.
pub fn promise_stays<W: Work>(work: &W)
    ensures { PromiseStays (W.forks work.now) (W.closes work.now) (W.may work.now) (W.faults work.now) }
{
    let _ = work;
}

/// A theory that is closed stays so.
pub fn closed_stays<W: Work>(work: &W)
    ensures { ClosedStays (W.forks work.now) (W.closes work.now) (W.may work.now) (W.faults work.now) }
{
    let _ = work;
}

/// What is not open in a state isn't open in later ones.
pub fn nothing_open_stays<W: Work>(work: &W)
    ensures { NothingOpenStays (W.forks work.now) (W.closes work.now) (W.may work.now) (W.faults work.now) }
{
    let _ = work;
}

/// A theory is taken by one seat at most, and so is a proof.
pub fn taker_is_one<W: Work>(work: &W)
    ensures { TakerIsOne (W.forks work.now) (W.closes work.now) (W.may work.now) (W.faults work.now) }
{
    let _ = work;
}

/// What a seat took is there: a theory of the session, or a promise.
pub fn taken_is_there<W: Work>(work: &W)
    ensures { TakenIsThere (W.forks work.now) (W.closes work.now) (W.may work.now) (W.faults work.now) }
{
    let _ = work;
}

/// A proof that a seat took, and of which it delivered no outcome, is out.
pub fn out_is_known<W: Work>(work: &W)
    ensures { OutIsKnown (W.forks work.now) (W.closes work.now) (W.may work.now) (W.faults work.now) }
{
    let _ = work;
}

/// A theory that a seat took and didn't close runs, with as many forks as the seat made.
pub fn running_is_known<W: Work>(work: &W)
    ensures { RunningIsKnown (W.forks work.now) (W.closes work.now) (W.may work.now) (W.faults work.now) }
{
    let _ = work;
}

/// A seat may enter the next fork of a theory that it took and didn't close.
pub fn fork_may_enter<W: Work>(work: &W)
    ensures { ForkMayEnter (W.forks work.now) (W.closes work.now) (W.may work.now) (W.faults work.now) }
{
    let _ = work;
}

/// A seat may close a theory that it took and didn't close.
pub fn close_may_enter<W: Work>(work: &W)
    ensures { CloseMayEnter (W.forks work.now) (W.closes work.now) (W.may work.now) (W.faults work.now) }
{
    let _ = work;
}

/// A seat may deliver an outcome of a proof that it took and of which it delivered none.
pub fn deliver_may_enter<W: Work>(work: &W)
    ensures { DeliverMayEnter (W.forks work.now) (W.closes work.now) (W.may work.now) (W.faults work.now) }
{
    let _ = work;
}

/// A seat that hasn't stopped the work may stop it.
pub fn stop_may_enter<W: Work>(work: &W)
    ensures { StopMayEnter (W.forks work.now) (W.closes work.now) (W.may work.now) (W.faults work.now) }
{
    let _ = work;
}

/// Of an orderly run each front is orderly.
pub fn front_is_orderly<W: Work>(work: &W)
    ensures { FrontIsOrderly W.Goal W.Closed W.Outcome }
{
    let _ = work;
}

/// A seat stays orderly by events of others, and by its own where nothing that it took is open.
pub fn orderly_grows<W: Work>(work: &W)
    ensures { OrderlyGrows W.Goal W.Closed W.Outcome }
{
    let _ = work;
}

/// At Finished nothing is open of what a seat took.
pub fn finished_is_closed<W: Work>(work: &W)
    ensures { FinishedIsClosed (W.forks work.now) (W.closes work.now) (W.may work.now) (W.faults work.now) }
{
    let _ = work;
}

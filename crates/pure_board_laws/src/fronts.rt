//! That what the seats have seen are fronts of one history: laws, each carried by the contract of a function that does nothing.
ghost use Rattle.pure_core_runs.specs.Seats.{state_of};
ghost use Rattle.pure_board.specs.Course.{IsLawful};
ghost use Rattle.pure_board_laws.specs.Fronts.{OpenSeatsHaveOneHistory, OfTwoSeatsOneIsBehind};

use pure_core::Work;

/// What the seats of an open board have seen are fronts of one history, a numbered legal run of its session, in which stands
/// what each of them entered.
pub fn open_seats_have_one_history<W: Work>(work: &W)
    ensures { OpenSeatsHaveOneHistory state_of (IsLawful W.shape W.forks W.closes W.may W.faults) work.now }
{
    let _ = work;
}

/// Of any two seats of an open board what one has seen is a front of what the other has seen.
pub fn of_two_seats_one_is_behind<W: Work>(work: &W)
    ensures { OfTwoSeatsOneIsBehind state_of (IsLawful W.shape W.forks W.closes W.may W.faults) work.now }
{
    let _ = work;
}

//! Laws of the definitions. What each function ensures is the law.
ghost use Rattle.pure_race.specs.Least.{LeastWinOnce};

use crate::attempts::Attempts;

/// Where no attempt both wins and loses, the least that wins is one.
pub fn least_win_once<A: Attempts>(_attempts: &A)
    ensures { LeastWinOnce (A.wins _attempts.now) }
{}

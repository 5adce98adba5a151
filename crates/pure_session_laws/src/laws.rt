//! Laws of loaded theories: each is the contract of a function that does nothing.
ghost use Rattle.pure_session_laws.specs.Following.{NextHasEnded, NextIsGiven, NoneHasEnded, ParentsHaveEnded};
ghost use Rattle.pure_session_laws.specs.InOrder.{LoadedInOrder};
ghost use Rattle.pure_session_laws.specs.Limits.{LoadedWithinLimits};
ghost use Rattle.pure_session_laws.specs.Well.{LoadedWell};

/// Each theory of a session has what is asked of those whose commands are checked: ranges that lie in its source, names for
/// all that it declares, a name that isn't Pure's, and scripts that end.
pub fn loaded_well()
    ensures { LoadedWell }
{}

/// The theories of a session have distinct names, and the parents of each come before it.
pub fn loaded_in_order()
    ensures { LoadedInOrder }
{}

/// The theories of a session and their commands aren't too many.
pub fn loaded_within_limits()
    ensures { LoadedWithinLimits }
{}

/// Where the theories of a session begin and end in load order, each has parents that have ended, and is given what one that
/// begins asks.
pub fn theories_follow()
    ensures none { NoneHasEnded }
    ensures parents { ParentsHaveEnded }
    ensures given { NextIsGiven }
    ensures ended { NextHasEnded }
{}

//! Which entries of states need not be held: laws, each carried by the contract of a function that does nothing.
ghost use Rattle.pure_pattern_bounds.specs.Laws.{StartIsCovered, ReplacedIsCovered, SetIsCovered, CoveredIsWithin};

/// States stay covered, and then entries of variables of the given indexes tell whether a state is within the limits.
pub fn entries_need_not_be_held()
    ensures start { StartIsCovered }
    ensures replaced { ReplacedIsCovered }
    ensures set { SetIsCovered }
    ensures within { CoveredIsWithin }
{}

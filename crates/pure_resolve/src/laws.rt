//! Laws of the last step of a goal: each is the contract of a function that does nothing.
ghost use Rattle.pure_resolve.specs.Ending.{EndsOnce, EndIsSound};

/// The last step has one outcome at most.
pub fn end_has_one_outcome()
    ensures { EndsOnce }
{}

/// It leads from a derivable goal to a derivable theorem.
pub fn end_is_sound()
    ensures { EndIsSound }
{}

//! What the definitions mean: laws, each carried by the contract of a function that does nothing.
ghost use Rattle.pure_logic.specs.Laws.Derivable.{PureIsConsistent};
ghost use Rattle.pure_consistency.specs.Laws.{TreesKeepTruth, OnePointIsOpen};

/// What a tree over Pure's content concludes is true in each finite model where its hypotheses are.
pub fn trees_keep_truth()
    ensures { TreesKeepTruth }
{}

/// Pure is consistent: `?P` isn't derivable; nor is that there is one point at most, which isn't refutable either.
pub fn pure_is_consistent()
    ensures any { PureIsConsistent }
    ensures points { OnePointIsOpen }
{}

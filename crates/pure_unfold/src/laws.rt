//! Laws of terms in which definitions are unfolded: each is the contract of a function that does nothing.
ghost use Rattle.pure_unfold.specs.Laws.{UnfoldsOnce, UnfoldsOrNothing, UnfoldsByDefinition, UnfoldedIsDerivable};

/// By one definition a term becomes one term at most.
pub fn unfolds_once()
    ensures once { UnfoldsOnce }
    ensures something { UnfoldsOrNothing }
    ensures definition { UnfoldsByDefinition }
{}

/// The equation of a term and what it becomes by a derivable definition is derivable.
pub fn unfolded_is_derivable()
    ensures { UnfoldedIsDerivable }
{}

//! What the definitions mean: laws, each carried by the contract of a function that does nothing.
ghost use Rattle.pure_promise_fates.specs.Laws.{OneFate, ProvedIsDerivable};

/// A lemma has one fate.
pub fn one_fate()
    ensures { OneFate }
{}

/// What is proved is derivable from the axioms of its content alone: where each lemma is derivable resting on its promises, and each promise states what its lemma does.
pub fn proved_is_derivable()
    ensures { ProvedIsDerivable }
{}

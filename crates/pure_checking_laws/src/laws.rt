//! Laws of settled promises: each is the contract of a function that does nothing.
ghost use Rattle.pure_checking_laws.specs.Laws.{OutcomesFulfil, RestsComeBefore, JoinedAreDerivable};

/// In every state of every legal run of a session a promise that is settled by a proof is fulfilled by its theorem, which
/// rests on promises with smaller numbers alone.
pub fn outcomes_fulfil()
    ensures fulfil { OutcomesFulfil }
    ensures rests { RestsComeBefore }
{}

/// In every state of every legal run of a session what a joined label states is derivable from axioms alone.
pub fn joined_are_derivable()
    ensures { JoinedAreDerivable }
{}

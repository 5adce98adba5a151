//! Laws of the definitions. Each function has no body: its contract is the law.
ghost use Rattle.pure_policy.specs.Laws.{WordsAreHeeded, NothingIsHeeded, NothingIsCancelled};

/// What is cancelled as the policy of the words asks for is cancelled as the words do.
pub fn words_are_heeded()
    ensures { WordsAreHeeded }
{}

/// Where no cancellation is asked for and no lemma is cancelled, that is as was asked.
pub fn nothing_is_heeded()
    ensures { NothingIsHeeded }
{}

/// Where no cancellation is asked for, no lemma is cancelled.
pub fn nothing_is_cancelled()
    ensures { NothingIsCancelled }
{}

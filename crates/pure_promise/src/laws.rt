//! What the definitions mean: laws, each carried by the contract of a function that does nothing.
ghost use Rattle.pure_promise.specs.Laws.{ProvedRow, JoinedIsProved};

/// A row says that a lemma is proved exactly where its fate is so.
pub fn proved_row()
    ensures { ProvedRow }
{}

/// A lemma is joined exactly where its fate is that it is proved.
pub fn joined_is_proved()
    ensures { JoinedIsProved }
{}

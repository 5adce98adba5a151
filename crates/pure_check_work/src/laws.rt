//! Laws of sessions as works, each carried by the contract of a function that does nothing.
ghost use Rattle.pure_check_work.specs.Laws.{JoinedAreLeft, TableHasPremises};
ghost use Rattle.pure_check_work.specs.Earlier.{PromisesComeBefore};
ghost use Rattle.pure_check_work.specs.Owned.{PromisesAreOwned};
ghost use Rattle.pure_check_work.specs.Heeded.{SessionIsHeeded};

/// What a finished core of the session hands out is what its theories left, and the entries of their lemmas.
pub fn joined_are_left()
    ensures { JoinedAreLeft }
{}

/// Of what theories left, and of the entries of lemmas, a table can be formed.
pub fn table_has_premises()
    ensures { TableHasPremises }
{}

/// In every state of every legal run of the session each promise of a goal's content is that of a lemma with a smaller number.
pub fn promises_come_before()
    ensures { PromisesComeBefore }
{}

/// In every state of every legal run of the session each promise is of the theory and of the command that its lemma's label has.
pub fn promises_are_owned()
    ensures { PromisesAreOwned }
{}

/// The lemmas of a session that was checked on a board are cancelled as its policy asks for.
pub fn session_is_heeded()
    ensures { SessionIsHeeded }
{}

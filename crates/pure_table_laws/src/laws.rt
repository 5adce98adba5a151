//! Laws of rows that stand, and of tables without haves: each is the contract of a function that does nothing.
ghost use Rattle.pure_table_laws.specs.Laws.{RowsStand, RowsStayInPlace};
ghost use Rattle.pure_table_laws.specs.WithoutHaves.{PromisesHaveTwoParts, LookUpIsFirst, ProofIsFirst, TableIsFirst, TableWithoutVersions, TextWithoutVersions};

/// A row of a session's table that is declared, refused, proved or failed stands whichever lemmas are cancelled, and at
/// its place.
pub fn rows_stand()
    ensures rows { RowsStand }
    ensures places { RowsStayInPlace }
{}

/// In a session without haves each promise has the name of a theory's lemma, so nothing is local to one: a proof finds the facts
/// that are found everywhere, and comes to what it came to.
pub fn nothing_is_local()
    ensures promises { PromisesHaveTwoParts }
    ensures look_ups { LookUpIsFirst }
    ensures proofs { ProofIsFirst }
{}

/// Such a session comes to the table to which it came, and so do files without the word `version`, whose text is what it was.
pub fn table_is_first()
    ensures sessions { TableIsFirst }
    ensures answers { TableWithoutVersions }
    ensures texts { TextWithoutVersions }
{}

//! What the definitions mean: laws, each carried by the contract of a function that does nothing.
ghost use Rattle.pure_table.specs.Fulfilled.{EntriesMayJoin, ResultsFulfil};
ghost use Rattle.pure_table.specs.There.{FatesAreThere, ProofsHaveValues, TableIsThere};
ghost use Rattle.pure_table.specs.Laws.{LemmasProvable, SaidAreParts, SaidAreStatements, TableHasFates, TableIsDerived, TableOnce};

/// What the theories of a session left are its statements, and with the entries of its lemmas the parts of its table.
pub fn said_are_parts()
    ensures statements { SaidAreStatements }
    ensures parts { SaidAreParts }
{}

/// A proof can be run of each lemma of a session.
pub fn lemmas_provable()
    ensures { LemmasProvable }
{}

/// The entries of a session's lemmas are in order, so that each has a fate.
pub fn table_has_fates()
    ensures { TableHasFates }
{}

/// What is printed as proved is derivable.
pub fn table_is_derived()
    ensures { TableIsDerived }
{}

/// A session comes to one table at most.
pub fn table_once()
    ensures { TableOnce }
{}

/// A lemma's result fulfils its promise.
pub fn results_fulfil()
    ensures { ResultsFulfil }
{}

/// Entries that are held for a session's lemmas may be joined.
pub fn entries_may_join()
    ensures { EntriesMayJoin }
{}

/// Something comes of the proof of each lemma that is bound.
pub fn proofs_have_values()
    ensures { ProofsHaveValues }
{}

/// A session comes to some table.
pub fn table_is_there()
    ensures { TableIsThere }
{}

/// Each lemma has a fate.
pub fn fates_are_there()
    ensures { FatesAreThere }
{}

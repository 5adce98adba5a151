//! What the definitions mean: laws, each carried by the contract of a function that does nothing.
ghost use Rattle.pure_lookup.specs.Laws.{OneMeaning, OneName, OneFact, OneLocalFact, LocalIsNeverMeant, FoundIsDeclared, ProtectIsNeverFound, MeaningIsKept, LocalChangesNone, NewIsMeant};

/// A written name means one thing at most, so each look-up has one answer at most.
pub fn one_meaning()
    ensures meaning { OneMeaning }
    ensures name { OneName }
    ensures fact { OneFact }
    ensures local { OneLocalFact }
{}

/// A fact that is local to a lemma is found in its proofs alone.
pub fn local_is_never_meant()
    ensures { LocalIsNeverMeant }
{}

/// What is found is declared, and is never the mark of a goal or its axiom.
pub fn found_is_declared()
    ensures declared { FoundIsDeclared }
    ensures other { ProtectIsNeverFound }
{}

/// What a further declaration changes: what is written otherwise keeps its meaning, which is all where it is local to a lemma, and its own name is found.
pub fn further_declaration()
    ensures kept { MeaningIsKept }
    ensures local { LocalChangesNone }
    ensures new { NewIsMeant }
{}

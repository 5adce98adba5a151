//! What the definitions mean: laws, each carried by the contract of a function that does nothing.
ghost use Rattle.pure_declare.specs.Bound.{ForksBound, PartForksBound};
ghost use Rattle.pure_declare.specs.Chains.{CommandsKeep};
ghost use Rattle.pure_declare.specs.Ends.{LemmasEnd, LemmasRefused, OneCommandOfLemma};
ghost use Rattle.pure_declare.specs.Good.{PureIsGood, DeclaresGood, PartsGood, GoodIsCertified};
ghost use Rattle.pure_declare.specs.Grown.{DeclaresGrown, PartsGrow};
ghost use Rattle.pure_declare.specs.Once.{DeclaresOnce, PartsOnce, CommandsOnce};
ghost use Rattle.pure_declare.specs.Plain.{DeclaresPlain, AreDeclaredPlain};
ghost use Rattle.pure_declare.specs.Promised.{DeclaresPromises, ForksPromised, PartsPromise, PartForksPromised};
ghost use Rattle.pure_declare.specs.Sessions.{DeclaresInSession, PartsInSession};
ghost use Rattle.pure_declare.specs.Somehow.{DeclaresSomehow, CommandsSomehow};
ghost use Rattle.pure_declare.specs.Tidy.{PureIsTidy, DeclaresTidy, ForksTidy, PartsTidy, PartForksTidy};

/// A command's next content is of the same theory, has the declarations of the one before, and keeps what the next command asks.
pub fn declares_grown()
    ensures { DeclaresGrown }
{}

/// Pure's facts are in beta normal form, closed, and with the index 0 alone.
pub fn pure_is_tidy()
    ensures { PureIsTidy }
{}

/// Where a content's facts are so, those of a command's next content are.
pub fn declares_tidy()
    ensures { DeclaresTidy }
{}

/// The statement of a lemma that a command binds is in beta normal form, closed and without schematic variables, and its promise states it generalised.
pub fn forks_tidy()
    ensures { ForksTidy }
{}

/// A promise of a command's next content stood before, or is that of the lemma which the command binds.
pub fn declares_promises()
    ensures { DeclaresPromises }
{}

/// Where a command binds a lemma, the next content is the one before with the lemma's promise.
pub fn forks_promised()
    ensures { ForksPromised }
{}

/// A lemma that a command binds has the command's label, content and proof, and states a proposition of the content.
pub fn forks_bound()
    ensures { ForksBound }
{}

/// A command's next content is one of the session too.
pub fn declares_in_session()
    ensures { DeclaresInSession }
{}

/// Pure's content is sound, and its classes are declared once, each after those above it.
pub fn pure_is_good()
    ensures { PureIsGood }
{}

/// Where a content is so, a command's next content is.
pub fn declares_good()
    ensures { DeclaresGood }
{}

/// Such a content is above Pure's, and its declarations are certified, as unification asks.
pub fn good_is_certified()
    ensures { GoodIsCertified }
{}

/// Over such a content of a session a command leaves one note and one next content at most.
pub fn declares_once()
    ensures { DeclaresOnce }
{}

/// Over such a content of a session, with names for what it declares and ranges that lie in the source, a command leaves some note and some next content.
pub fn declares_somehow()
    ensures { DeclaresSomehow }
{}

/// A part's next content is of the same theory, has the declarations of the one before, and keeps what the next part asks.
pub fn parts_grow()
    ensures { PartsGrow }
{}

/// Where a content's facts are tidy, those of a part's next content are.
pub fn parts_tidy()
    ensures { PartsTidy }
{}

/// The statement of a fork that a part leaves is in beta normal form, closed and without schematic variables, and its promise states it generalised.
pub fn part_forks_tidy()
    ensures { PartForksTidy }
{}

/// A promise of a part's next content stood before, or is that of the fork which the part leaves.
pub fn parts_promise()
    ensures { PartsPromise }
{}

/// Where a part leaves a fork, the next content is the one before with the fork's promise.
pub fn part_forks_promised()
    ensures { PartForksPromised }
{}

/// A fork that a part leaves has the part's label, content and proof, and states a proposition of the content.
pub fn part_forks_bound()
    ensures { PartForksBound }
{}

/// A part's next content is one of the session too.
pub fn parts_in_session()
    ensures { PartsInSession }
{}

/// Where a content is good, a part's next content is.
pub fn parts_good()
    ensures { PartsGood }
{}

/// Over a good content of a session a part leaves one note and one next content at most.
pub fn parts_once()
    ensures { PartsOnce }
{}

/// Over such a content a command leaves one list of notes and one next content at most.
pub fn commands_once()
    ensures { CommandsOnce }
{}

/// Over such a content, with names for what it declares and ranges that lie in the source, a command leaves some notes and some next content.
pub fn commands_somehow()
    ensures { CommandsSomehow }
{}

/// What a command without haves leaves is one part, as it was before there were haves.
pub fn declares_plain()
    ensures { DeclaresPlain }
{}

/// So it is with commands of which none has haves.
pub fn are_declared_plain()
    ensures { AreDeclaredPlain }
{}

/// A lemma's own fork, behind its haves, is that which it has where they are passed over, over the content that they leave; and theirs are of this lemma.
pub fn lemmas_end()
    ensures { LemmasEnd }
{}

/// A lemma whose own statement is refused leaves its row alone.
pub fn lemmas_refused()
    ensures { LemmasRefused }
{}

/// Two forks of a theory with the same lemma are of one command.
pub fn one_command_of_lemma()
    ensures { OneCommandOfLemma }
{}

/// A command's next content keeps what each of its parts keeps.
pub fn commands_keep()
    ensures { CommandsKeep }
{}

//! Laws of the contents of a session: each is the contract of a function that does nothing.
ghost use Rattle.pure_session_laws.specs.Kept.{CommandKeepsOwned, CommandKeepsSession, NothingHasEnded, TheoryEnds};
ghost use Rattle.pure_session_laws.specs.OwnerLaws.{BeginningIsInSession, BeginningIsOwned, LabelsAreBelow, ParentsMayBegin};

/// A theory may begin with parents that are last contents of its session, or Pure.
pub fn parents_may_begin()
    ensures { ParentsMayBegin }
{}

/// In the content with which a theory begins each declaration is Pure's, or one of a theory that has ended.
pub fn beginning_is_owned()
    ensures { BeginningIsOwned }
{}

/// The content with which a theory begins is as look-ups ask, and its labels come before the theory's own.
pub fn beginning_is_in_session()
    ensures session { BeginningIsInSession }
    ensures labels { LabelsAreBelow }
{}

/// What a command declares is its own theory's, and it keeps a content as look-ups ask.
pub fn command_keeps_owned()
    ensures owned { CommandKeepsOwned }
    ensures session { CommandKeepsSession }
{}

/// With each theory that ends there is one more content that theories may begin with; at first there is Pure alone.
pub fn theory_ends()
    ensures ends { TheoryEnds }
    ensures nothing { NothingHasEnded }
{}

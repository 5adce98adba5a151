//! That the constraints on a draft say when it is typed: laws, each carried by the contract of a function that does nothing.
ghost use Rattle.pure_elab_laws.specs.TypedParts.{TypingsSolveConstraints, TypingsOfWholeDrafts};

/// A map of unknown types gives each part of a draft its type exactly where it solves the draft's constraints.
pub fn typings_solve_constraints()
    ensures { TypingsSolveConstraints }
{}

/// The typings of a whole draft are the substitutions by which each of its parts has its type, and the whole that which it has
/// to have.
pub fn typings_of_whole_drafts()
    ensures { TypingsOfWholeDrafts }
{}

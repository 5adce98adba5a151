//! Laws of unification: each is the contract of a function that does nothing.
ghost use Rattle.pure_tunify.specs.Laws.{StepIsReduction, MostGeneralAlongReduction, SolvedIsMostGeneral, FailedHasNoUnifier, RefutedHasNoUnifier, EachIsAsked, NothingToNarrow, OnlyThere, AskedHasInstance};
ghost use Rattle.pure_tunify.specs.ProcedureLaws.{ProcedureIsMeant, ProcedureHasOneOutcome, ProcedureHasAnOutcome};
ghost use Rattle.pure_tunify.specs.Examples.{NarrowedExample, OccursExample};

/// A step takes unifiers there and back.
pub fn step_is_reduction()
    ensures { StepIsReduction }
{}

/// A step and then a most general unifier of what is left are a most general unifier.
pub fn most_general_along_reduction()
    ensures { MostGeneralAlongReduction }
{}

/// What the steps solve is a most general unifier.
pub fn solved_is_most_general()
    ensures { SolvedIsMostGeneral }
{}

/// Pairs of which the first fails have no unifier.
pub fn failed_has_no_unifier()
    ensures { FailedHasNoUnifier }
{}

/// Pairs that the steps refute have no unifier.
pub fn refuted_has_no_unifier()
    ensures { RefutedHasNoUnifier }
{}

/// What the procedure comes to is a most general unifier, or the first pair without one, or beyond the limits.
pub fn procedure_is_meant()
    ensures { ProcedureIsMeant }
{}

/// The procedure comes to one outcome at most.
pub fn procedure_has_one_outcome()
    ensures { ProcedureHasOneOutcome }
{}

/// Over a coregular algebra, as each order is, the procedure comes to one outcome at least.
pub fn procedure_has_an_outcome()
    ensures { ProcedureHasAnOutcome }
{}

/// What stands in the list of what is asked is asked, as the step that narrows a variable wants it.
pub fn each_is_asked()
    ensures { EachIsAsked }
{}

/// The type is of the sort, as the step that sets a variable wants it, exactly where each variable's own sort is below
/// what is asked of it.
pub fn nothing_to_narrow()
    ensures there { NothingToNarrow }
    ensures only_there { OnlyThere }
{}

/// What is asked can be met.
pub fn asked_has_instance()
    ensures { AskedHasInstance }
{}

/// A variable of a class and one of none are solved by a fresh one of the class.
pub fn narrowed_example()
    ensures { NarrowedExample }
{}

/// A variable and a type of functions from it are refuted.
pub fn occurs_example()
    ensures { OccursExample }
{}

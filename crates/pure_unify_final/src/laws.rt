//! What the search for a unifier leaves of solutions: laws, each carried by the contract of a function that does nothing.
ghost use Rattle.pure_unify_final.specs.Laws.{StepsKeepSolutions, FailuresHaveNoSolution, ChildrenKeepSolutions, NoUnifierIsFinal};
ghost use Rattle.pure_unify_final.specs.Examples.{NoSolutionExample, SolutionExample, FirmExample, OccurringExample};

/// What solves a node solves what a step of simplification makes of it.
pub fn steps_keep_solutions()
    ensures { StepsKeepSolutions }
{}

/// A node that fails has no solution.
pub fn failures_have_no_solution()
    ensures { FailuresHaveNoSolution }
{}

/// Where a simplified node has a solution, some child has one.
pub fn children_keep_solutions()
    ensures { ChildrenKeepSolutions }
{}

/// Where the search answers that there is no unifier, no map solves the given pairs.
pub fn no_unifier_is_final()
    ensures { NoUnifierIsFinal }
{}

/// Two fixed variables have no solution; a schematic and a fixed one have. A variable that occurs on a firm path of the other side has none; one that occurs elsewhere may.
pub fn solution_examples()
    ensures none { NoSolutionExample }
    ensures some { SolutionExample }
    ensures firm { FirmExample }
    ensures occurring { OccurringExample }
{}

//! What unification of patterns answers: laws, each carried by the contract of a function that does nothing.
ghost use Rattle.pure_pattern_laws.specs.Examples.{PatternExample, AgreeingExample, SharedExample, PutExample, UnifiedExample, ClashExample, RefusedExample};
ghost use Rattle.pure_pattern_laws.specs.Laws.{PutInIsLongForm, PutInIsPattern, SettingsArePatterns, StepsKeepPatterns, OneAnswer, SomeAnswer, UnifierIsMap, UnifierSolves, UnifierIsMostGeneral, NoUnifierIsFinal};

/// Renaming puts a long map into a pattern.
pub fn put_in_by_renaming()
    ensures long { PutInIsLongForm }
    ensures pattern { PutInIsPattern }
{}

/// What is set are patterns, and steps lead from patterns to patterns.
pub fn steps_keep_patterns()
    ensures settings { SettingsArePatterns }
    ensures steps { StepsKeepPatterns }
{}

/// Pairs in long form have just one answer.
pub fn one_answer()
    ensures one { OneAnswer }
    ensures some { SomeAnswer }
{}

/// A unifier is a finite map, and solves the pairs.
pub fn unifier_solves()
    ensures map { UnifierIsMap }
    ensures solves { UnifierSolves }
{}

/// A unifier is most general.
pub fn unifier_is_most_general()
    ensures { UnifierIsMostGeneral }
{}

/// Where there is no unifier, no map solves the pairs.
pub fn no_unifier_is_final()
    ensures { NoUnifierIsFinal }
{}

/// Which terms are patterns, which images are set and put in, and some answers.
pub fn examples()
    ensures pattern { PatternExample }
    ensures agreeing { AgreeingExample }
    ensures shared { SharedExample }
    ensures put { PutExample }
    ensures unified { UnifiedExample }
    ensures clash { ClashExample }
    ensures refused { RefusedExample }
{}

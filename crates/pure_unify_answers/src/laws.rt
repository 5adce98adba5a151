//! Laws of the answers of the search for a unifier: each is the contract of a function that does nothing.
ghost use Rattle.pure_unify_answers.specs.Laws.{SearchHasAnAnswer, UnifierSolves, UnifierIsFinite, PureIsUnifyContent, MapsOneAfterTheOther};
ghost use Rattle.pure_unify_answers.specs.Examples.{SetExample, SolvesExample, ClashExample};

/// The search has an answer for all pairs within its condition.
pub fn search_has_an_answer()
    ensures { SearchHasAnAnswer }
{}

/// A unifier solves the pairs: its maps respect the content, and under them the sides of each given pair are equated
/// modulo the flex-flex pairs, which are certified, of one type, in long form and flexible.
pub fn unifier_solves()
    ensures { UnifierSolves }
{}

/// It is two finite maps, which respect sorts and types and change nothing when they are applied again.
pub fn unifier_is_finite()
    ensures { UnifierIsFinite }
{}

/// Its maps are the type map, and then the term map.
pub fn maps_one_after_the_other()
    ensures { MapsOneAfterTheOther }
{}

/// Pure's own content is one over which terms are unified.
pub fn pure_is_unify_content()
    ensures { PureIsUnifyContent }
{}

/// A variable is set to a fixed one, which solves the pair; two fixed ones have no unifier.
pub fn answer_examples()
    ensures set { SetExample }
    ensures solves { SolvesExample }
    ensures clash { ClashExample }
{}

//! When maps solve pairs, and what terms that reduce to one have in common: laws, each carried by the contract of a function that does nothing.
ghost use Rattle.pure_solutions.specs.Laws.{LongFormsAreEnds, EndsAreLongForms, EndsOfBodies, EndsOfAbstractions, EndsOfApplications, SolvedByLongForms, SolvedBySameImages, EachMapHasALongMap};

/// Closed typed terms have one long form exactly where they have one end.
pub fn ends_and_long_forms()
    ensures ends { LongFormsAreEnds }
    ensures long { EndsAreLongForms }
{}

/// What the parts of terms with one end have in common.
pub fn ends_of_parts()
    ensures bodies { EndsOfBodies }
    ensures abstractions { EndsOfAbstractions }
    ensures applications { EndsOfApplications }
{}

/// Long forms, and images with the same long forms, don't matter to what a map solves.
pub fn solved_pairs()
    ensures long { SolvedByLongForms }
    ensures same { SolvedBySameImages }
{}

/// For each map there is a long one that solves the same.
pub fn each_map_has_a_long_map()
    ensures { EachMapHasALongMap }
{}

//! Laws of the order: each is the contract of a function that does nothing.
ghost use Rattle.pure_order.specs.Laws.{ClassBelowIsTransitive, SortBelowIsReflexive, SortBelowIsTransitive, OfClassGoesUp, OfSortGoesUp, OfSortUnderMap, DeclaredInOrderIsAntisymmetric, ReducedIsOne, ClassBelowOfSame, SortBelowOfSame, OfSortOfSame, CoregularOfSame};

/// Below is transitive on classes.
pub fn class_below_is_transitive()
    ensures { ClassBelowIsTransitive }
{}

/// A sort is below itself.
pub fn sort_below_is_reflexive()
    ensures { SortBelowIsReflexive }
{}

/// Below is transitive on sorts.
pub fn sort_below_is_transitive()
    ensures { SortBelowIsTransitive }
{}

/// A type of a class is of each class above it.
pub fn of_class_goes_up()
    ensures { OfClassGoesUp }
{}

/// A type of a sort is of each sort above it.
pub fn of_sort_goes_up()
    ensures { OfSortGoesUp }
{}

/// A map that respects sorts keeps the sorts of types.
pub fn of_sort_under_map()
    ensures { OfSortUnderMap }
{}

/// Where each class is declared once, and after those above it, no two classes are below each other.
pub fn declared_in_order_is_antisymmetric()
    ensures { DeclaredInOrderIsAntisymmetric }
{}

/// Sorts that are below each other have one reduced sort.
pub fn reduced_is_one()
    ensures { ReducedIsOne }
{}

/// Which classes are below others rests on which declarations there are, and not on their order.
pub fn class_below_of_same()
    ensures { ClassBelowOfSame }
{}

/// So does which sorts are below others.
pub fn sort_below_of_same()
    ensures { SortBelowOfSame }
{}

/// So does which types are of a sort.
pub fn of_sort_of_same()
    ensures { OfSortOfSame }
{}

/// So does whether an algebra is coregular.
pub fn coregular_of_same()
    ensures { CoregularOfSame }
{}

//! Laws of the definitions. Each function has no body: its contract is the law.
ghost use Rattle.pure_read.specs.Laws.{TermOrFault, TypeOrFault, OneTermFault, OneTypeFault, PartsAreSlices};

/// No tokens have both the tree of a term and a fault of syntax.
pub fn term_or_fault()
    ensures { TermOrFault }
{}

/// No tokens have both the tree of a type and a fault of syntax.
pub fn type_or_fault()
    ensures { TypeOrFault }
{}

/// No tokens have first faults of a term at two places.
pub fn one_term_fault()
    ensures { OneTermFault }
{}

/// No tokens have first faults of a type at two places.
pub fn one_type_fault()
    ensures { OneTypeFault }
{}

/// The tokens of a part of a source, as a quoted text, are slices of the source, as reading them asks.
pub fn parts_are_slices()
    ensures { PartsAreSlices }
{}

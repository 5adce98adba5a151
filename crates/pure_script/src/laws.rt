//! Laws of the definitions. Each function has no body: its contract is the law.
ghost use Rattle.pure_script.specs.Laws.{TheoryOrFault, OneFaultPlace};

/// No tokens have both a tree and a fault of syntax.
pub fn theory_or_fault()
    ensures { TheoryOrFault }
{}

/// No tokens have first faults of syntax at two places.
pub fn one_fault_place()
    ensures { OneFaultPlace }
{}

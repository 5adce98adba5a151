//! A law, carried by the contract of a function that does nothing.
ghost use Rattle.pure_theory_tables.specs.Keys.{OrdinaryLabelsApart};

/// Labels as a session has them meet under no number.
pub fn ordinary_labels_apart()
    ensures { OrdinaryLabelsApart }
{}

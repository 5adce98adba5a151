//! Theories by their names and indexes.
use pure_term::Name;
use std::marker::Model;

/// A theory: its name, and its index in load order.
#[derive(Clone, Copy)]
pub struct Known {
    pub name: Name,
    pub index: u32,
}

impl Model for Known {
    ghost use Rattle.pure_logic.specs.Content as tree;
    ghost use Rattle.pure_theory.specs.Codes.{coded_theory};

    ghost Value = { tree.TheoryId };

    ghost coded = { coded_theory };

    ghost view = { λ t. record { name = t.name; index = t.index } };

    ghost inverse = { λ t. record { name = t.name; index = t.index } };
}

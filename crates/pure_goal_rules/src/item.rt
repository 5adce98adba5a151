//! Prefixes of propositions, as they stand in them.
use pure_term::{Term, Typ};

/// A part of the prefix of a proposition, where it stands there: the type of a parameter, or a hypothesis.
#[derive(Clone, Copy)]
pub enum Item<'t> {
    Parameter(&'t Typ),
    Hypothesis(&'t Term),
}

/// A hypothesis in a prefix, with the items before it and those after it.
#[derive(Clone, Copy)]
pub struct Spot<'i, 't> {
    pub before: &'i [Item<'t>],
    pub hypothesis: &'t Term,
    pub after: &'i [Item<'t>],
}

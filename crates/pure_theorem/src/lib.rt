//! Theorems as values, what inferences answer, and what inferences are made of: sets, connectives, limits.
#![tactic(auto)]

mod base;
mod built;
mod connective;
mod fault;
mod fresh;
mod inference;
mod limits;
mod lists;
mod same;
mod sets;
mod theorem;
mod typed;

pub use base::Base;
pub use built::{Built, built_term};
pub use connective::{
    all_of, application, as_all, as_application, as_equation, as_implication, equation,
    implication, implication_by, implication_constant, is_prop, prop_typ,
};
pub use fault::RuleFault;
pub use fresh::{first_pair_with, first_with};
pub use inference::{alone, from_one, from_two, within_limits};
pub use lists::{copied_pairs, copied_terms, extend_pairs, extend_terms};
pub use same::{are_same, are_same_typs};
pub use sets::{compare_labels, set_of_terms, united_labels, united_terms, without};
pub use theorem::{Pair, Thm};
pub use typed::{has_typ, range_for, typ_of_typed, typ_of_variable};

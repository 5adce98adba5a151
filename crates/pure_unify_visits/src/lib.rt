//! Visits of nodes in the search for a unifier of terms: the sides are brought to long form, and the rules are applied as long as one applies.
#![tactic(auto)]

mod apply;
mod retypes;
mod scan;
mod settings;
mod splits;
mod visits;

pub use scan::Visited;
pub use visits::{visit, visit_long};

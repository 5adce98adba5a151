//! Nodes of the search for a unifier of terms: their sides in long form, and whether two are of one type.
#![tactic(auto)]

mod long;
mod own;
mod typs;

pub use long::{long_pairs, long_side, owned_long_side};
pub use own::is_own;
pub use typs::have_one_typ;

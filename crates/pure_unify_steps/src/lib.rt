//! The steps of the search for a unifier of terms: settings put into pairs, the treatment of a pair, and steps on types.
#![tactic(auto)]

mod bare;
mod direct;
mod gather;
mod node;
mod put;
mod retype;
mod treat;

pub use direct::direct_entry;
pub use node::{Node, Path, Setting};
pub use put::{put_owned_pairs, put_pairs};
pub use retype::{Retyping, retype_pairs};
pub use treat::{Treatment, treatment_of};

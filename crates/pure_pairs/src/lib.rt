//! Pairs that unification left: equality modulo pairs, theorems without trivial pairs, and theorems whose pairs are smashed.
#![tactic(auto)]

mod constant;
mod difference;
mod index;
pub mod laws;
mod modulo;
mod plain;
mod scope;
mod theorem;
mod trivial;

pub use index::theorem_index_above;
pub use modulo::{PairDiffers, equal_modulo};
pub use theorem::smash;
pub use trivial::drop_trivial;

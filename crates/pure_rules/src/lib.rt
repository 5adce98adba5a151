//! The primitive inferences of the logic: facts of a theory, assumption, implication and quantification.
#![tactic(auto)]

mod facts;
mod implication;
mod quantification;

pub use facts::{axiom, built, promise};
pub use implication::{assume, implies_elim, implies_intro};
pub use quantification::{all_elim, all_intro};

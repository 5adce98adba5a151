//! The inferences of equality: an equivalence, a congruence, equality of propositions, and reduction.
#![tactic(auto)]

mod congruence;
mod equivalence;
mod propositions;
mod reduction;

pub use congruence::{abstraction, combination};
pub use equivalence::{reflexive, symmetric, transitive};
pub use propositions::{equal_elim, equal_intr};
pub use reduction::{beta, eta};

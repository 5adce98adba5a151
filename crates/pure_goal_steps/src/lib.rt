//! Goal states, and the steps of proofs on them, as definitions.
#![tactic(auto)]

mod fault;
pub mod laws;

pub use fault::StepFault;
pub use pure_pairs as pairs;

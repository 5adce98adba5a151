//! A prover of propositions of implication alone, as an example of a prover over the kernel.
#![tactic(auto)]

mod prover;
mod steps;

pub use prover::decide;

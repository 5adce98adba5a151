//! The equational theory modulo pairs: which terms are equal by beta, eta, the equations of pairs, and congruence.
#![tactic(auto)]

pub mod examples;
pub mod laws;

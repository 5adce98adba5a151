//! The logic: contents, derivation trees, and what is derivable.
#![tactic(auto)]

pub mod examples;
pub mod laws;

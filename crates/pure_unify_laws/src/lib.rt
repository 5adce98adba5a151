//! What the definitions of the unifier mean: laws.
#![tactic(auto)]

pub mod laws;

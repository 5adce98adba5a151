//! That a unifier's 'no' is final: laws.
#![tactic(auto)]

pub mod laws;

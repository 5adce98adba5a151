//! What the search for a unifier answers: laws.
#![tactic(auto)]

pub mod laws;

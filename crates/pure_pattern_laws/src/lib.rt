//! Unification of patterns: its definition, and laws.
#![tactic(auto)]

pub mod laws;

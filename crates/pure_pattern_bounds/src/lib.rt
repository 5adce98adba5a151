//! Unification of patterns: which entries need not be held.
#![tactic(auto)]

pub mod laws;

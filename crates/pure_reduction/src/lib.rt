//! Beta reduction at any place, and long forms of terms that aren't normal: laws.
#![tactic(auto)]

pub mod laws;

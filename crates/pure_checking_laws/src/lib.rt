//! Promises that are settled by proofs, in the states of a session's runs: laws.
#![tactic(auto)]

pub mod laws;

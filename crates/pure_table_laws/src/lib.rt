//! Rows that stand whichever lemmas are cancelled: laws.
#![tactic(auto)]

pub mod laws;

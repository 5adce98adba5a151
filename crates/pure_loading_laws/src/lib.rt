//! That the files of a directory have a session.
#![tactic(auto)]

pub mod laws;

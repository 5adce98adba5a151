//! Pure is consistent: a finite model in which trees keep truth.
#![tactic(auto)]

pub mod laws;

//! Seats of a machine of parallel checking: which seat did what in a legal run, as definitions and laws.
#![tactic(auto)]

pub mod laws;

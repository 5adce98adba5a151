//! That the calls of a core which answer nothing are steps of its work.
#![tactic(auto)]

pub mod steps;

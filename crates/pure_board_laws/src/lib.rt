//! What the seats of a board have seen while it is open.
#![tactic(auto)]

pub mod fronts;

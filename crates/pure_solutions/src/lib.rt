//! Maps of schematic variables, and which pairs they solve: laws.
#![tactic(auto)]

pub mod laws;

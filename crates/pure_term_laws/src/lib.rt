//! What the definitions of types, terms, classes and declarations mean.
#![tactic(auto)]

pub mod laws;

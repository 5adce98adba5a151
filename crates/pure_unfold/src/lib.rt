//! Definitions, and terms in which they are unfolded: what that means, and laws of it.
#![tactic(auto)]

pub mod laws;

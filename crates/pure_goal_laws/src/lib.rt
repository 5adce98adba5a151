//! Laws of goals: prefixes of subgoals, rules lifted over them, and goal steps.
#![tactic(auto)]

pub mod examples;
pub mod laws;

//! Unification of patterns: a most general unifier, or why there is none to answer.
#![tactic(auto)]

mod call;
mod fault;
mod given;
mod put;
mod run;
mod state;
mod step;

pub use call::unify_pattern;
pub use fault::PatternFault;

//! Laws of steps by unification: each leads from a derivable goal to a derivable one.
#![tactic(auto)]

pub mod laws;

pub use pure_unify_answers as unify_answers;

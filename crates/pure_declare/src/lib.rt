//! The statement phase: what each command of a theory declares, or why it is refused.
#![tactic(auto)]

mod arity;
mod change;
mod command;
mod definition;
mod fault;
mod fixing;
mod grown;
mod haves;
mod language;
pub mod laws;
mod lemma;
mod lookups;
mod may;
mod notes;
mod place;
mod quoted;
mod simple;
mod tails;
mod taken;

pub use command::declare;
pub use language::NamedTheory;
pub use may::may_declare;
pub use notes::{Declared, Duty, Note};
pub use pure_theory as theory;

//! Generated libraries of theories, which have some lemmas of each outcome.
#![tactic(auto)]

mod lemma;
mod library;

pub use library::generate;

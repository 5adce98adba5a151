//! Of which facts a lemma's statement is an instance, by unification of patterns.
#![tactic(auto)]

mod facts;
mod finding;
pub mod laws;
mod long;
mod named;
mod standing;

pub use named::{Found, find_lemma};
pub use standing::Standing;

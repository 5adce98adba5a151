//! Proofs of a lemma in one step, tried in order, at once on several workers.
#![tactic(auto)]

mod answer;
mod duties;
mod facts;
pub mod laws;
mod method;
mod named;
mod text;
mod tries;

pub use answer::Answer;
pub use method::Method;
pub use named::{first_method, try_lemma};
pub use text::{is_found, line};

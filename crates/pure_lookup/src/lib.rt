//! What a written name means over a content, and the look-ups by it.
#![tactic(auto)]

pub mod examples;
mod find;
pub mod laws;
mod scope;

pub use find::{find_name, theory_in};
pub use scope::Scope;

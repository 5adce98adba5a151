//! What a finished core leaves: the value that closed each theory, and its promises with what became of them.
#![tactic(auto)]

pub mod laws;
mod walk;

pub use walk::{Joined, join_core};

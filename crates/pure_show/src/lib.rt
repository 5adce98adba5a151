//! The course of a lemma's proof as text: each step with its place and the state on which it is made.
#![tactic(auto)]

mod course;
pub mod laws;
mod named;
mod page;
mod state;
mod step;

pub use named::{Shown, show_lemma};

//! The tree of a theory's text.
#![tactic(auto)]

mod arity;
mod class;
mod have;
mod item;
pub mod laws;
mod lexeme;
mod place;
mod proof;
mod read;
mod state;
mod texts;
mod theory;
mod turn;
mod typedecl;

pub use pure_text::TextList;
pub use read::read_theory;
pub use theory::{Command, Have, ScriptFault, Span, Step, TheoryText};

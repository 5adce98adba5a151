//! The work of a session's statements: its theories begin over their parents, and their commands run one after the other.
#![tactic(auto)]

mod begin;
mod checker;
mod closed;
mod command;
mod named;
mod numbers;
mod parents;
mod parts;
mod refused;
mod run;
mod statements;

pub use checker::Checker;
pub use closed::Closed;
pub use named::{is_written, lemma_named, text_of};
pub use pure_session_meaning as session_meaning;
pub use pure_session_meaning::{declare, method, session_laws, theory};
pub use refused::refused_theory;
pub use run::{Run, Turn};
pub use statements::Statements;

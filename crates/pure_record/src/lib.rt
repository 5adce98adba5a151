//! Recorded derivations: a text that states a content and a derivation, line by line, and what it says.
#![tactic(auto)]

mod item;
pub mod laws;
mod lexeme;
mod lexing;
mod line;
mod names;
mod read;
mod reader;
mod recogniser;
mod record;
mod runs;
mod symbol;
mod term;
mod typ;

pub use lexeme::{Lexeme, Mark, Word};
pub use read::read_record;
pub use record::{Item, Node, Record, RecordFault};
pub use runs::MAX_RUN;

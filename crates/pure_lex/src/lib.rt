//! The tokens of a source, and the lines and columns of its places.
#![tactic(auto)]

mod bytes;
mod first;
mod front;
mod gaps;
mod identifier;
pub mod laws;
mod lines;
mod names;
mod reading;

pub use identifier::is_identifier;
pub use lines::line_col;
pub use pure_grammar::{Token, TokenKind};
pub use reading::{LexFault, tokens};

//! Definitions of the texts that are read: what a token is, and which tokens spell a source.
#![tactic(auto)]

mod inner;
pub mod laws;
mod lexeme;
mod token;

pub use inner::{Mark, Opening};
pub use lexeme::{Keyword, Sign};
pub use token::{Token, TokenKind};

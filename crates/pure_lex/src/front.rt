//! What is read at the front of a text.
use pure_grammar::TokenKind;

/// The first token of a text: its kind, and how many bytes it has.
#[derive(Clone, Copy)]
pub struct Front {
    pub kind: TokenKind,
    pub len: usize,
}

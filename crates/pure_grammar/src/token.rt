//! Tokens and their kinds.

/// The kinds of tokens. `End` is the end of the source, only as what was expected.
#[derive(Clone, Copy, Debug, PartialEq, Eq)]
pub enum TokenKind {
    Word,
    Ident,
    Qualified,
    TypeVar,
    Schem,
    BoundName,
    Number,
    Quote,
    Symbol,
    End,
}

/// A token: its kind, and the place of its first byte and of the byte behind its last.
#[derive(Clone, Copy, Debug, PartialEq, Eq)]
pub struct Token {
    pub kind: TokenKind,
    pub from: u32,
    pub to: u32,
}

//! The signs of terms and types.

/// The signs with which a part of a term or a type begins: `!!`, `%`, `[|`, `(` and `[`.
#[derive(Clone, Copy, Debug, PartialEq, Eq)]
pub enum Opening {
    All,
    Lambda,
    Premises,
    Parenthesis,
    Bracket,
}

/// The other signs of terms and types: `==>`, `==`, `=>`, `::`, `|]`, `.`, `,`, `;`, `)`, `]`, `{` and `}`.
#[derive(Clone, Copy, Debug, PartialEq, Eq)]
pub enum Mark {
    Implies,
    Equals,
    Arrow,
    DoubleColon,
    ClosePremises,
    Dot,
    Comma,
    Semicolon,
    CloseParenthesis,
    CloseBracket,
    OpenBrace,
    CloseBrace,
}

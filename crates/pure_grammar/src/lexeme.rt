//! The words and signs of theories.

/// The words that the grammar of theories reserves.
#[derive(Clone, Copy, Debug, PartialEq, Eq)]
pub enum Keyword {
    Theory,
    Imports,
    Begin,
    End,
    Class,
    Typedecl,
    Arities,
    Consts,
    Axiomatization,
    Where,
    And,
    Definition,
    Lemma,
    Theorem,
    Apply,
    Done,
    By,
    Prefer,
    Defer,
    Have,
    Version,
}

/// The signs that stand in the grammar of theories.
#[derive(Clone, Copy, Debug, PartialEq, Eq)]
pub enum Sign {
    Less,
    Comma,
    Colon,
    DoubleColon,
    OpenParenthesis,
    CloseParenthesis,
    OpenBrace,
    CloseBrace,
}

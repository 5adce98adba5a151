//! What a token is to the grammar.
ghost use Rattle.std.specs.Prelude.{◌≡◌, IfOk, ℕ, ◌<◌, ◌≤◌, length, slice_range};
ghost use Rattle.pure_grammar.specs.Theories.Lexeme as spec;
ghost use Rattle.pure_grammar.specs.Tokens.Spelling.{IsSlice};
ghost use Rattle.pure_script.specs.Lexemes.{seen_lexeme, seen_text, seen_span};

use crate::theory::Span;
use pure_grammar::{Keyword, Sign, Token, TokenKind};
use std::alloc::AllocError;

/// A token by what the grammar tells apart.
#[derive(Clone, Copy)]
pub(crate) enum Lexeme<'s> {
    Reserved { word: Keyword },
    Signed { sign: Sign },
    Plain { text: &'s [u8], at: Span },
    Dotted { text: &'s [u8], at: Span },
    Variable { text: &'s [u8], at: Span },
    Numeral { value: u32 },
    Quoted { at: Span },
    Other { kind: TokenKind },
}

/// The number of a keyword.
fn keyword_number(word: Keyword) -> u8
    ensures { result ≡ spec.keyword_number word }
{
    match word {
        Keyword::Theory => 0,
        Keyword::Imports => 1,
        Keyword::Begin => 2,
        Keyword::End => 3,
        Keyword::Class => 4,
        Keyword::Typedecl => 5,
        Keyword::Arities => 6,
        Keyword::Consts => 7,
        Keyword::Axiomatization => 8,
        Keyword::Where => 9,
        Keyword::And => 10,
        Keyword::Definition => 11,
        Keyword::Lemma => 12,
        Keyword::Theorem => 13,
        Keyword::Apply => 14,
        Keyword::Done => 15,
        Keyword::By => 16,
        Keyword::Prefer => 17,
        Keyword::Defer => 18,
        Keyword::Have => 19,
        Keyword::Version => 20,
    }
}

/// The number of a sign.
fn sign_number(sign: Sign) -> u8
    ensures { result ≡ spec.sign_number sign }
{
    match sign {
        Sign::Less => 0,
        Sign::Comma => 1,
        Sign::Colon => 2,
        Sign::DoubleColon => 3,
        Sign::OpenParenthesis => 4,
        Sign::CloseParenthesis => 5,
        Sign::OpenBrace => 6,
        Sign::CloseBrace => 7,
    }
}

/// Whether the token is this keyword.
pub(crate) fn is_word(word: Keyword, lexeme: Lexeme<'_>) -> bool
    ensures { result ≡ spec.is_word word (seen_lexeme lexeme.entry) }
{
    match lexeme {
        Lexeme::Reserved { word: found } => keyword_number(found) == keyword_number(word),
        _ => false,
    }
}

/// Whether the token is this sign.
pub(crate) fn is_sign(sign: Sign, lexeme: Lexeme<'_>) -> bool
    ensures { result ≡ spec.is_sign sign (seen_lexeme lexeme.entry) }
{
    match lexeme {
        Lexeme::Signed { sign: found } => sign_number(found) == sign_number(sign),
        _ => false,
    }
}

/// Whether the token is the identifier with this text.
pub(crate) fn is_ident(text: &[u8], lexeme: Lexeme<'_>) -> bool
    ensures { result ≡ spec.is_ident text.now (seen_lexeme lexeme.entry) }
{
    match lexeme {
        Lexeme::Plain { text: found, .. } => found == text,
        _ => false,
    }
}

/// The text, if the token is an identifier.
pub(crate) fn ident_in<'s>(lexeme: Lexeme<'s>) -> Option<&'s [u8]>
    ensures { seen_text result ≡ spec.ident_in (seen_lexeme lexeme.entry) }
{
    match lexeme {
        Lexeme::Plain { text, .. } => Some(text),
        _ => None,
    }
}

/// The text, if the token is a name, qualified or not.
pub(crate) fn name_in<'s>(lexeme: Lexeme<'s>) -> Option<&'s [u8]>
    ensures { seen_text result ≡ spec.name_in (seen_lexeme lexeme.entry) }
{
    match lexeme {
        Lexeme::Plain { text, .. } => Some(text),
        Lexeme::Dotted { text, .. } => Some(text),
        _ => None,
    }
}

/// The text, if the token is a type variable.
pub(crate) fn variable_in<'s>(lexeme: Lexeme<'s>) -> Option<&'s [u8]>
    ensures { seen_text result ≡ spec.variable_in (seen_lexeme lexeme.entry) }
{
    match lexeme {
        Lexeme::Variable { text, .. } => Some(text),
        _ => None,
    }
}

/// The value, if the token is a number.
pub(crate) fn number_in(lexeme: Lexeme<'_>) -> Option<u32>
    ensures { result ≡ spec.number_in (seen_lexeme lexeme.entry) }
{
    match lexeme {
        Lexeme::Numeral { value } => Some(value),
        _ => None,
    }
}

/// The range between the marks, if the token is a quoted text.
pub(crate) fn quote_in(lexeme: Lexeme<'_>) -> Option<Span>
    ensures { seen_span result ≡ spec.quote_in (seen_lexeme lexeme.entry) }
{
    match lexeme {
        Lexeme::Quoted { at } => Some(at),
        _ => None,
    }
}

/// The range of the type, if the token is one.
pub(crate) fn type_in(lexeme: Lexeme<'_>) -> Option<Span>
    ensures { seen_span result ≡ spec.type_in (seen_lexeme lexeme.entry) }
{
    match lexeme {
        Lexeme::Quoted { at } => Some(at),
        Lexeme::Plain { at, .. } => Some(at),
        Lexeme::Dotted { at, .. } => Some(at),
        Lexeme::Variable { at, .. } => Some(at),
        _ => None,
    }
}

/// What a token of the source is to the grammar.
pub(crate) fn lexeme_of<'s>(source: &'s [u8], token: Token) -> Result<Lexeme<'s>, AllocError>
    requires slice { IsSlice source.now token }
    ensures { IfOk result (λ found. seen_lexeme found ≡ spec.lexeme source.now token) }
{
    let text = &source[token.from as usize..token.to as usize];
    let at = Span {
        from: token.from,
        to: token.to,
    };
    match token.kind {
        TokenKind::Word => Ok(word_lexeme(text)),
        TokenKind::Ident => Ok(Lexeme::Plain { text, at }),
        TokenKind::Qualified => Ok(Lexeme::Dotted { text, at }),
        TokenKind::TypeVar => Ok(Lexeme::Variable { text, at }),
        TokenKind::Schem => Ok(Lexeme::Other {
            kind: TokenKind::Schem,
        }),
        TokenKind::BoundName => Ok(Lexeme::Other {
            kind: TokenKind::BoundName,
        }),
        TokenKind::Number => Ok(Lexeme::Numeral {
            value: value_of(text)?,
        }),
        TokenKind::Quote => Ok(Lexeme::Quoted {
            at: Span {
                from: token.from + 1,
                to: token.to - 1,
            },
        }),
        TokenKind::Symbol => Ok(symbol_lexeme(text)),
        TokenKind::End => Ok(Lexeme::Other {
            kind: TokenKind::End,
        }),
    }
}

/// The value of digits. More than nine of them never come.
fn value_of(digits: &[u8]) -> Result<u32, AllocError>
    ensures { IfOk result (λ value. value ≡ spec.value_behind 0 digits.now) }
{
    let mut value: u32 = 0;
    for digit in digits {
        let Some(tens) = value.checked_mul(10) else {
            return Err(AllocError);
        };
        let Some(next) = tens.checked_add(u32::from(digit.saturating_sub(b'0'))) else {
            return Err(AllocError);
        };
        value = next;
    }
    Ok(value)
}

/// Whether these are the same bytes.
fn equals(bytes: &[u8], text: &[u8]) -> bool
    ensures { result ≡ spec.same bytes.now text.now }
{
    bytes == text
}

/// The sign of these bytes.
#[tactic(auto, unfolding(pure_grammar::specs::Theories::Lexeme::symbol_lexeme))]
fn symbol_lexeme<'s>(text: &'s [u8]) -> Lexeme<'s>
    ensures { seen_lexeme result ≡ spec.symbol_lexeme text.now }
{
    if equals(text, b"<") {
        return Lexeme::Signed { sign: Sign::Less };
    }
    if equals(text, b",") {
        return Lexeme::Signed { sign: Sign::Comma };
    }
    if equals(text, b":") {
        return Lexeme::Signed { sign: Sign::Colon };
    }
    if equals(text, b"::") {
        return Lexeme::Signed {
            sign: Sign::DoubleColon,
        };
    }
    if equals(text, b"(") {
        return Lexeme::Signed {
            sign: Sign::OpenParenthesis,
        };
    }
    if equals(text, b")") {
        return Lexeme::Signed {
            sign: Sign::CloseParenthesis,
        };
    }
    if equals(text, b"{") {
        return Lexeme::Signed {
            sign: Sign::OpenBrace,
        };
    }
    if equals(text, b"}") {
        return Lexeme::Signed {
            sign: Sign::CloseBrace,
        };
    }
    Lexeme::Other {
        kind: TokenKind::Symbol,
    }
}

/// The token of a keyword.
fn reserved<'s>(word: Keyword) -> Lexeme<'s>
    ensures { seen_lexeme result ≡ spec.Reserved word }
{
    Lexeme::Reserved { word }
}

/// The keyword of these bytes.
#[tactic(auto, unfolding(pure_grammar::specs::Theories::Lexeme::word_lexeme))]
fn word_lexeme<'s>(text: &'s [u8]) -> Lexeme<'s>
    ensures { seen_lexeme result ≡ spec.word_lexeme text.now }
{
    if equals(text, b"theory") {
        return reserved(Keyword::Theory);
    }
    if equals(text, b"imports") {
        return reserved(Keyword::Imports);
    }
    if equals(text, b"begin") {
        return reserved(Keyword::Begin);
    }
    if equals(text, b"end") {
        return reserved(Keyword::End);
    }
    if equals(text, b"version") {
        return reserved(Keyword::Version);
    }
    command_lexeme(text)
}

/// The keyword of a command or a proof that these bytes are.
#[tactic(auto, unfolding(pure_grammar::specs::Theories::Lexeme::command_lexeme))]
fn command_lexeme<'s>(text: &'s [u8]) -> Lexeme<'s>
    ensures { seen_lexeme result ≡ spec.command_lexeme text.now }
{
    if equals(text, b"class") {
        return reserved(Keyword::Class);
    }
    if equals(text, b"typedecl") {
        return reserved(Keyword::Typedecl);
    }
    if equals(text, b"arities") {
        return reserved(Keyword::Arities);
    }
    if equals(text, b"consts") {
        return reserved(Keyword::Consts);
    }
    if equals(text, b"axiomatization") {
        return reserved(Keyword::Axiomatization);
    }
    if equals(text, b"where") {
        return reserved(Keyword::Where);
    }
    if equals(text, b"and") {
        return reserved(Keyword::And);
    }
    if equals(text, b"definition") {
        return reserved(Keyword::Definition);
    }
    if equals(text, b"lemma") {
        return reserved(Keyword::Lemma);
    }
    if equals(text, b"theorem") {
        return reserved(Keyword::Theorem);
    }
    proof_lexeme(text)
}

/// The keyword of a proof that these bytes are.
#[tactic(auto, unfolding(pure_grammar::specs::Theories::Lexeme::proof_lexeme))]
fn proof_lexeme<'s>(text: &'s [u8]) -> Lexeme<'s>
    ensures { seen_lexeme result ≡ spec.proof_lexeme text.now }
{
    if equals(text, b"apply") {
        return reserved(Keyword::Apply);
    }
    if equals(text, b"done") {
        return reserved(Keyword::Done);
    }
    if equals(text, b"by") {
        return reserved(Keyword::By);
    }
    if equals(text, b"prefer") {
        return reserved(Keyword::Prefer);
    }
    if equals(text, b"defer") {
        return reserved(Keyword::Defer);
    }
    if equals(text, b"have") {
        return reserved(Keyword::Have);
    }
    Lexeme::Other {
        kind: TokenKind::Word,
    }
}

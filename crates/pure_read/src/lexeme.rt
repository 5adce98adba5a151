//! What a token is to the grammar of terms and types.
ghost use Rattle.std.specs.Prelude.{◌≡◌, ◌==◌, IfOk, Some};
ghost use Rattle.pure_grammar.specs.Tokens.Bytes.{apostrophe, head_is};
ghost use Rattle.pure_grammar.specs.Terms.InnerLexeme as spec;
ghost use Rattle.pure_grammar.specs.Theories.Lexeme.{same};
ghost use Rattle.pure_grammar.specs.Terms.InnerReader as reader;
ghost use Rattle.pure_grammar.specs.Tokens.Spelling.{IsSlice};
ghost use Rattle.pure_grammar.specs.Tokens.Token.{tail};
ghost use Rattle.pure_read.specs.Seen.{seen_lexeme, seen_written};

use pure_grammar::{Mark, Opening, Token, TokenKind};
use pure_text::Text;
use std::alloc::{AllocError, Global};

/// A token by what the grammar tells apart.
#[derive(Clone, Copy)]
pub(crate) enum Lexeme<'s> {
    Plain { text: &'s [u8], at: u32 },
    Dotted { text: &'s [u8], at: u32 },
    Variable { text: &'s [u8], at: u32 },
    Schematic { text: &'s [u8], at: u32 },
    TypeSchematic { text: &'s [u8], at: u32 },
    Bound { text: &'s [u8], at: u32 },
    Opens { opening: Opening, at: u32 },
    Signed { mark: Mark },
    Other,
    Ends,
}

/// A name or a variable by its token.
#[derive(Drop)]
pub(crate) struct Written {
    pub(crate) at: u32,
    pub(crate) kind: TokenKind,
    pub(crate) text: Text,
}

/// A number for each opening.
fn opening_number(opening: Opening) -> u8
    ensures { result ≡ reader.opening_number opening }
{
    match opening {
        Opening::All => 0,
        Opening::Lambda => 1,
        Opening::Premises => 2,
        Opening::Parenthesis => 3,
        Opening::Bracket => 4,
    }
}

/// A number for each mark.
fn mark_number(mark: Mark) -> u8
    ensures { result ≡ reader.mark_number mark }
{
    match mark {
        Mark::Implies => 0,
        Mark::Equals => 1,
        Mark::Arrow => 2,
        Mark::DoubleColon => 3,
        Mark::ClosePremises => 4,
        Mark::Dot => 5,
        Mark::Comma => 6,
        Mark::Semicolon => 7,
        Mark::CloseParenthesis => 8,
        Mark::CloseBracket => 9,
        Mark::OpenBrace => 10,
        Mark::CloseBrace => 11,
    }
}

/// Where this opening stands, if the token is it.
pub(crate) fn opening_at(opening: Opening, lexeme: Lexeme<'_>) -> Option<u32>
    ensures { result ≡ reader.opening_at opening (seen_lexeme lexeme.entry) }
{
    match lexeme {
        Lexeme::Opens { opening: found, at } => {
            if opening_number(found) == opening_number(opening) {
                Some(at)
            } else {
                None
            }
        }
        _ => None,
    }
}

/// Whether the token is this sign.
pub(crate) fn is_mark(mark: Mark, lexeme: Lexeme<'_>) -> bool
    ensures { result ≡ reader.is_mark mark (seen_lexeme lexeme.entry) }
{
    match lexeme {
        Lexeme::Signed { mark: found } => mark_number(found) == mark_number(mark),
        _ => false,
    }
}

/// Whether it is the end of the tokens.
pub(crate) fn is_end(lexeme: Lexeme<'_>) -> bool
    ensures { result ≡ reader.is_end (seen_lexeme lexeme.entry) }
{
    match lexeme {
        Lexeme::Ends => true,
        _ => false,
    }
}

/// The name or variable with its text.
fn with_text(
    alloc: Global,
    kind: TokenKind,
    text: &[u8],
    at: u32,
) -> Result<Option<Written>, AllocError>
    ensures { IfOk result (λ found. seen_written found ≡ Some (record { at = at; kind = kind; text = text.now })) }
{
    let text = Text::make(alloc, text)?;
    Ok(Some(Written { at, kind, text }))
}

/// A name or a variable of a term.
pub(crate) fn leaf_in(alloc: Global, lexeme: Lexeme<'_>) -> Result<Option<Written>, AllocError>
    ensures { IfOk result (λ found. seen_written found ≡ reader.leaf_in (seen_lexeme lexeme.entry)) }
{
    match lexeme {
        Lexeme::Plain { text, at } => with_text(alloc, TokenKind::Ident, text, at),
        Lexeme::Dotted { text, at } => with_text(alloc, TokenKind::Qualified, text, at),
        Lexeme::Schematic { text, at } => with_text(alloc, TokenKind::Schem, text, at),
        Lexeme::Bound { text, at } => with_text(alloc, TokenKind::BoundName, text, at),
        _ => Ok(None),
    }
}

/// A variable of a binder.
pub(crate) fn var_in(alloc: Global, lexeme: Lexeme<'_>) -> Result<Option<Written>, AllocError>
    ensures { IfOk result (λ found. seen_written found ≡ reader.var_in (seen_lexeme lexeme.entry)) }
{
    match lexeme {
        Lexeme::Plain { text, at } => with_text(alloc, TokenKind::Ident, text, at),
        Lexeme::Bound { text, at } => with_text(alloc, TokenKind::BoundName, text, at),
        _ => Ok(None),
    }
}

/// A variable of a type.
pub(crate) fn variable_in(alloc: Global, lexeme: Lexeme<'_>) -> Result<Option<Written>, AllocError>
    ensures { IfOk result (λ found. seen_written found ≡ reader.variable_in (seen_lexeme lexeme.entry)) }
{
    match lexeme {
        Lexeme::Variable { text, at } => with_text(alloc, TokenKind::TypeVar, text, at),
        Lexeme::TypeSchematic { text, at } => with_text(alloc, TokenKind::Schem, text, at),
        _ => Ok(None),
    }
}

/// A name of a class or a constructor.
pub(crate) fn name_in(alloc: Global, lexeme: Lexeme<'_>) -> Result<Option<Written>, AllocError>
    ensures { IfOk result (λ found. seen_written found ≡ reader.name_in (seen_lexeme lexeme.entry)) }
{
    match lexeme {
        Lexeme::Plain { text, at } => with_text(alloc, TokenKind::Ident, text, at),
        Lexeme::Dotted { text, at } => with_text(alloc, TokenKind::Qualified, text, at),
        _ => Ok(None),
    }
}

/// What a token of the source is to the grammar.
pub(crate) fn lexeme_of<'s>(source: &'s [u8], token: Token) -> Lexeme<'s>
    requires slice { IsSlice source.now token }
    ensures { seen_lexeme result ≡ spec.inner source.now token }
{
    let text = &source[token.from as usize..token.to as usize];
    let at = token.from;
    match token.kind {
        TokenKind::Word => Lexeme::Plain { text, at },
        TokenKind::Ident => Lexeme::Plain { text, at },
        TokenKind::Qualified => Lexeme::Dotted { text, at },
        TokenKind::TypeVar => Lexeme::Variable { text, at },
        TokenKind::Schem => schematic_lexeme(text, at),
        TokenKind::BoundName => Lexeme::Bound { text, at },
        TokenKind::Number => Lexeme::Other,
        TokenKind::Quote => Lexeme::Other,
        TokenKind::Symbol => sign_lexeme(text, at),
        TokenKind::End => Lexeme::Other,
    }
}

/// Whether an apostrophe stands behind the first byte.
fn is_marked_as_type(text: &[u8]) -> bool
    ensures { result ≡ head_is (λ b. b == apostrophe) (tail text.now) }
{
    match text.split_first() {
        None => false,
        Some((_, rest)) => match rest.split_first() {
            None => false,
            Some((second, _)) => *second == b'\'',
        },
    }
}

/// A schematic variable of terms, or of types where an apostrophe stands behind its question mark.
fn schematic_lexeme<'s>(text: &'s [u8], at: u32) -> Lexeme<'s>
    ensures { seen_lexeme result ≡ spec.schematic_lexeme text.now at }
{
    if is_marked_as_type(text) {
        Lexeme::TypeSchematic { text, at }
    } else {
        Lexeme::Schematic { text, at }
    }
}

/// Whether both are one text.
fn equals(bytes: &[u8], text: &[u8]) -> bool
    ensures { result ≡ same bytes.now text.now }
{
    bytes == text
}

/// An opening at its place.
fn opens<'s>(opening: Opening, at: u32) -> Lexeme<'s>
    ensures { seen_lexeme result ≡ spec.Opens opening at }
{
    Lexeme::Opens { opening, at }
}

/// A sign that begins nothing.
fn signed<'s>(mark: Mark) -> Lexeme<'s>
    ensures { seen_lexeme result ≡ spec.Signed mark }
{
    Lexeme::Signed { mark }
}

/// The sign of these bytes, where it begins nothing.
#[tactic(auto, unfolding(pure_grammar::specs::Terms::InnerLexeme::mark_lexeme))]
fn mark_lexeme<'s>(text: &[u8]) -> Lexeme<'s>
    ensures { seen_lexeme result ≡ spec.mark_lexeme text.now }
{
    if equals(text, b"==>") {
        return signed(Mark::Implies);
    }
    if equals(text, b"==") {
        return signed(Mark::Equals);
    }
    if equals(text, b"=>") {
        return signed(Mark::Arrow);
    }
    if equals(text, b"::") {
        return signed(Mark::DoubleColon);
    }
    if equals(text, b"|]") {
        return signed(Mark::ClosePremises);
    }
    if equals(text, b".") {
        return signed(Mark::Dot);
    }
    if equals(text, b",") {
        return signed(Mark::Comma);
    }
    if equals(text, b";") {
        return signed(Mark::Semicolon);
    }
    if equals(text, b")") {
        return signed(Mark::CloseParenthesis);
    }
    if equals(text, b"]") {
        return signed(Mark::CloseBracket);
    }
    if equals(text, b"{") {
        return signed(Mark::OpenBrace);
    }
    if equals(text, b"}") {
        return signed(Mark::CloseBrace);
    }
    Lexeme::Other
}

/// The sign of these bytes.
#[tactic(auto, unfolding(pure_grammar::specs::Terms::InnerLexeme::sign_lexeme))]
fn sign_lexeme<'s>(text: &'s [u8], at: u32) -> Lexeme<'s>
    ensures { seen_lexeme result ≡ spec.sign_lexeme text.now at }
{
    if equals(text, b"!!") {
        return opens(Opening::All, at);
    }
    if equals(text, b"%") {
        return opens(Opening::Lambda, at);
    }
    if equals(text, b"[|") {
        return opens(Opening::Premises, at);
    }
    if equals(text, b"(") {
        return opens(Opening::Parenthesis, at);
    }
    if equals(text, b"[") {
        return opens(Opening::Bracket, at);
    }
    mark_lexeme(text)
}

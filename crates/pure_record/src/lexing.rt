//! The tokens of a source by what the grammar of records tells apart.
ghost use Rattle.std.specs.Prelude.{◌≡◌, IfOk, IfSome, length, slice_range, option_map};
ghost use Rattle.pure_grammar.specs.Theories.Lexeme.{same, value_behind};
ghost use Rattle.pure_grammar.specs.Tokens.Spelling.{IsSlice, AreSlices};
ghost use Rattle.pure_grammar.specs.Tokens.Token.{tail};
ghost use Rattle.pure_record.specs.Lexemes as spec;

use crate::lexeme::{Lexeme, Mark, Word};
use pure_grammar::{Token, TokenKind};
use pure_term::{Name, Names};
use std::alloc::{AllocError, Global};

/// Whether these are the same bytes.
pub(crate) fn equals(bytes: &[u8], text: &[u8]) -> bool
    ensures { result ≡ same bytes.now text.now }
{
    if bytes.len() != text.len() {
        return false;
    }
    if bytes.len() == 1 {
        return bytes[0] == text[0];
    }
    bytes == text
}

/// A mark.
fn marked(mark: Mark) -> Lexeme
    ensures { result ≡ Lexeme.Marked mark }
{
    Lexeme::Marked { mark }
}

/// The keyword of these bytes.
#[tactic(auto, unfolding(crate::specs::Lexemes::keyword_lexeme))]
fn keyword_lexeme(bytes: &[u8]) -> Lexeme
    ensures { result ≡ spec.keyword_lexeme bytes.now }
{
    if equals(bytes, b"begin") {
        return marked(Mark::Begin);
    }
    if equals(bytes, b"end") {
        return marked(Mark::End);
    }
    if equals(bytes, b"typedecl") {
        return marked(Mark::Typedecl);
    }
    if equals(bytes, b"consts") {
        return marked(Mark::Consts);
    }
    if equals(bytes, b"axiomatization") {
        return marked(Mark::Axiomatization);
    }
    Lexeme::Other
}

/// The brackets of these bytes.
#[tactic(auto, unfolding(crate::specs::Lexemes::bracket_lexeme))]
fn bracket_lexeme(bytes: &[u8]) -> Lexeme
    ensures { result ≡ spec.bracket_lexeme bytes.now }
{
    if equals(bytes, b"(") {
        return marked(Mark::OpenParenthesis);
    }
    if equals(bytes, b")") {
        return marked(Mark::CloseParenthesis);
    }
    if equals(bytes, b"[") {
        return marked(Mark::OpenBracket);
    }
    if equals(bytes, b"]") {
        return marked(Mark::CloseBracket);
    }
    if equals(bytes, b"{") {
        return marked(Mark::OpenBrace);
    }
    if equals(bytes, b"}") {
        return marked(Mark::CloseBrace);
    }
    Lexeme::Other
}

/// The sign of these bytes.
#[tactic(auto, unfolding(crate::specs::Lexemes::sign_lexeme))]
fn sign_lexeme(bytes: &[u8]) -> Lexeme
    ensures { result ≡ spec.sign_lexeme bytes.now }
{
    if equals(bytes, b"|") {
        return marked(Mark::Bar);
    }
    if equals(bytes, b":") {
        return marked(Mark::Colon);
    }
    if equals(bytes, b"::") {
        return marked(Mark::DoubleColon);
    }
    if equals(bytes, b",") {
        return marked(Mark::Comma);
    }
    if equals(bytes, b";") {
        return marked(Mark::Semicolon);
    }
    if equals(bytes, b"%") {
        return marked(Mark::Percent);
    }
    bracket_lexeme(bytes)
}

/// The name of Pure that these bytes are.
#[tactic(auto, unfolding(crate::specs::Lexemes::pure_word))]
fn pure_word(bytes: &[u8]) -> Word
    ensures { result ≡ spec.pure_word bytes.now }
{
    if equals(bytes, b"fun") {
        return Word::Fun;
    }
    if equals(bytes, b"prop") {
        return Word::Prop;
    }
    if equals(bytes, b"all") {
        return Word::All;
    }
    if equals(bytes, b"imp") {
        return Word::Imp;
    }
    if equals(bytes, b"eq") {
        return Word::Eq;
    }
    if equals(bytes, b"protect") {
        return Word::Protect;
    }
    Word::Other
}

/// The word of an equality that these bytes are.
#[tactic(auto, unfolding(crate::specs::Lexemes::equality_word))]
fn equality_word(bytes: &[u8]) -> Word
    ensures { result ≡ spec.equality_word bytes.now }
{
    if equals(bytes, b"beta") {
        return Word::Beta;
    }
    if equals(bytes, b"refl") {
        return Word::Refl;
    }
    if equals(bytes, b"subst") {
        return Word::Subst;
    }
    if equals(bytes, b"ext") {
        return Word::Ext;
    }
    if equals(bytes, b"iff") {
        return Word::Iff;
    }
    pure_word(bytes)
}

/// The word that these bytes are.
#[tactic(auto, unfolding(crate::specs::Lexemes::word_of))]
fn word_of(bytes: &[u8]) -> Word
    ensures { result ≡ spec.word_of bytes.now }
{
    if equals(bytes, b"axiom") {
        return Word::Axiom;
    }
    if equals(bytes, b"assume") {
        return Word::Assume;
    }
    if equals(bytes, b"alli") {
        return Word::AllIntro;
    }
    if equals(bytes, b"alle") {
        return Word::AllElim;
    }
    if equals(bytes, b"impi") {
        return Word::ImpIntro;
    }
    if equals(bytes, b"impe") {
        return Word::ImpElim;
    }
    equality_word(bytes)
}

/// What stands before the first dot.
fn before_dot(bytes: &[u8]) -> &[u8]
    ensures { result.now ≡ spec.before_dot bytes.now }
{
    for (at, byte) in bytes.iter().enumerate() {
        if *byte == b'.' {
            return &bytes[..at];
        }
    }
    bytes
}

/// What stands behind the first dot.
fn behind_dot(bytes: &[u8]) -> &[u8]
    ensures { result.now ≡ spec.behind_dot bytes.now }
{
    for (at, byte) in bytes.iter().enumerate() {
        if *byte == b'.' {
            return &bytes[at + 1..];
        }
    }
    b""
}

/// The bytes behind the first.
fn tail_of(bytes: &[u8]) -> &[u8]
    ensures { result.now ≡ tail bytes.now }
{
    match bytes.split_first() {
        Some((_, rest)) => rest,
        None => bytes,
    }
}

/// Whether an apostrophe comes first.
fn is_typ(bytes: &[u8]) -> bool
    ensures { result ≡ spec.is_typ bytes.now }
{
    match bytes.split_first() {
        Some((first, _)) => *first == b'\'',
        None => false,
    }
}

/// The text of a schematic variable's name, of what stands behind the question mark.
fn schematic_text(bytes: &[u8]) -> &[u8]
    ensures { result.now ≡ spec.schematic_text bytes.now }
{
    if is_typ(bytes) {
        return before_dot(tail_of(bytes));
    }
    before_dot(bytes)
}

/// The value of digits. More than nine of them never come.
fn value_of(digits: &[u8]) -> Result<u32, AllocError>
    ensures { IfOk result (λ value. value ≡ value_behind 0 digits.now) }
{
    let mut value: u32 = 0;
    for digit in digits {
        let Some(tens) = value.checked_mul(10) else {
            return Err(AllocError);
        };
        let Some(next) = tens.checked_add(u32::from(digit.saturating_sub(b'0'))) else {
            return Err(AllocError);
        };
        value = next;
    }
    Ok(value)
}

/// The name with this text. The names have the text of each token that is asked for.
fn name_of(names: &Names, text: &[u8]) -> Result<Name, AllocError>
    ensures { IfOk result (λ name. name ≡ spec.number_of names.now text.now) }
{
    names.are_session_texts();
    match names.find(text) {
        Some(name) => Ok(name),
        None => Err(AllocError),
    }
}

/// An identifier.
fn identifier(names: &Names, bytes: &[u8]) -> Result<Lexeme, AllocError>
    ensures { IfOk result (λ found. found ≡ Lexeme.Identifier (spec.number_of names.now bytes.now) (spec.word_of bytes.now)) }
{
    let name = name_of(names, bytes)?;
    let word = word_of(bytes);
    Ok(Lexeme::Identifier { name: name.0, word })
}

/// A fixed type variable, of what stands behind its mark.
fn type_variable(names: &Names, bytes: &[u8]) -> Result<Lexeme, AllocError>
    ensures { IfOk result (λ found. found ≡ Lexeme.TypeVariable (spec.number_of names.now bytes.now)) }
{
    let name = name_of(names, bytes)?;
    Ok(Lexeme::TypeVariable { name: name.0 })
}

/// A schematic variable, of what stands behind the question mark.
fn schematic(names: &Names, bytes: &[u8]) -> Result<Lexeme, AllocError>
    ensures { IfOk result (λ found. found ≡ spec.schematic_lexeme names.now bytes.now) }
{
    let name = name_of(names, schematic_text(bytes))?;
    let index = value_of(behind_dot(bytes))?;
    if is_typ(bytes) {
        return Ok(Lexeme::SchematicType {
            name: name.0,
            index,
        });
    }
    Ok(Lexeme::SchematicTerm {
        name: name.0,
        index,
    })
}

/// A bound variable, of its digits.
fn bound(digits: &[u8]) -> Result<Lexeme, AllocError>
    ensures { IfOk result (λ found. found ≡ Lexeme.Bound (value_behind 0 digits.now)) }
{
    let place = value_of(digits)?;
    Ok(Lexeme::Bound { place })
}

/// A number, of its digits.
fn numeral(digits: &[u8]) -> Result<Lexeme, AllocError>
    ensures { IfOk result (λ found. found ≡ Lexeme.Numeral (value_behind 0 digits.now)) }
{
    let value = value_of(digits)?;
    Ok(Lexeme::Numeral { value })
}

/// What a token of this kind and these bytes is to the grammar.
fn lexeme_of(names: &Names, kind: TokenKind, bytes: &[u8]) -> Result<Lexeme, AllocError>
    ensures { IfOk result (λ found. found ≡ spec.lexeme_of names.now kind bytes.now) }
{
    match kind {
        TokenKind::Word => Ok(keyword_lexeme(bytes)),
        TokenKind::Ident => identifier(names, bytes),
        TokenKind::Qualified => Ok(Lexeme::Other),
        TokenKind::TypeVar => type_variable(names, tail_of(bytes)),
        TokenKind::Schem => schematic(names, tail_of(bytes)),
        TokenKind::BoundName => bound(tail_of(bytes)),
        TokenKind::Number => numeral(bytes),
        TokenKind::Quote => Ok(Lexeme::Other),
        TokenKind::Symbol => Ok(sign_lexeme(bytes)),
        TokenKind::End => Ok(Lexeme::Other),
    }
}

/// The bytes of a token, which is a slice of the source.
pub(crate) fn bytes_of<'s>(source: &'s [u8], token: Token) -> &'s [u8]
    requires { IsSlice source.now token }
    ensures { result.now ≡ slice_range source.now token.from token.to }
{
    &source[token.from as usize..token.to as usize]
}

/// What a token of the source is to the grammar.
fn lexeme(names: &Names, source: &[u8], token: Token) -> Result<Lexeme, AllocError>
    requires { IsSlice source.now token }
    ensures { IfOk result (λ found. found ≡ spec.lexeme names.now source.now token) }
{
    let bytes = bytes_of(source, token);
    lexeme_of(names, token.kind, bytes)
}

/// The tokens of the source, and its end, by what the grammar tells apart.
pub(crate) fn lexemes_of(
    alloc: Global,
    names: &Names,
    source: &[u8],
    tokens: &[Token],
) -> Result<Vec<Lexeme>, AllocError>
    requires { AreSlices source.now 0 (length source.now) tokens.now }
    ensures { IfOk result (λ list. list.items ≡ spec.lexemes names.now source.now tokens.now) }
{
    let mut list = Vec::new(alloc);
    for token in tokens {
        let found = lexeme(names, source, *token)?;
        list.push(found)?;
    }
    let end = marked(Mark::SourceEnd);
    list.push(end)?;
    Ok(list)
}

/// The text that a token gives to the record's names.
pub(crate) fn spelling_of(kind: TokenKind, bytes: &[u8]) -> Option<&[u8]>
    ensures { option_map (λ text. text.now) result ≡ spec.spelling_of kind bytes.now }
{
    match kind {
        TokenKind::Ident => Some(bytes),
        TokenKind::TypeVar => Some(tail_of(bytes)),
        TokenKind::Schem => Some(schematic_text(tail_of(bytes))),
        TokenKind::Word => None,
        TokenKind::Qualified => None,
        TokenKind::BoundName => None,
        TokenKind::Number => None,
        TokenKind::Quote => None,
        TokenKind::Symbol => None,
        TokenKind::End => None,
    }
}

/// The bytes of a token, if it lies in the source.
pub(crate) fn bytes_within<'s>(source: &'s [u8], token: Token) -> Option<&'s [u8]>
    ensures { IfSome result (λ bytes. bytes.now ≡ slice_range source.now token.from token.to) }
{
    let from = token.from as usize;
    let to = token.to as usize;
    if from > to {
        return None;
    }
    if to > source.len() {
        return None;
    }
    Some(&source[from..to])
}

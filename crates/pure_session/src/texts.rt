//! The texts that the tokens of a source give.
ghost use Rattle.std.specs.Prelude.{◌≡◌, ◌⊎◌, true, false, length, slice_range, option_map, IfOk, OnOk};
ghost use Rattle.pure_text.specs.Lists.{Each, AnyOf};
ghost use Rattle.pure_grammar.specs.Tokens.Spelling.{IsSlice};
ghost use Rattle.pure_grammar.specs.Tokens.Token.{tail};
ghost use Rattle.pure_graph.specs.SessionNames as spec;
ghost use Rattle.pure_graph.specs.SessionNames.{Gives, GivesInside, IsSpelled};
ghost use Rattle.pure_session.specs.NameSets.{Gains};

use crate::near::Texts;
use pure_grammar::{Token, TokenKind};
use pure_lex::{LexFault, tokens};
use std::alloc::{AllocError, Global};

/// The bytes of the token.
fn bytes_of<'s>(source: &'s [u8], token: &Token) -> &'s [u8]
    requires { IsSlice source.now token.now }
    ensures { result.now ≡ slice_range source.now token.now.from token.now.to }
{
    &source[token.from as usize..token.to as usize]
}

/// The bytes behind the first.
fn without_mark(bytes: &[u8]) -> &[u8]
    ensures { result.now ≡ tail bytes.now }
{
    match bytes.split_first() {
        Some((_, rest)) => rest,
        None => bytes,
    }
}

/// The spelling that a token gives.
fn spelling_of<'s>(source: &'s [u8], token: &Token, is_quoted: bool) -> Option<&'s [u8]>
    requires { IsSlice source.now token.now }
    ensures { option_map (λ s. s.now) result ≡ spec.spelling_of is_quoted token.now.kind (slice_range source.now token.now.from token.now.to) }
{
    let bytes = bytes_of(source, token);
    match token.kind {
        TokenKind::Ident => Some(bytes),
        TokenKind::Word => { if is_quoted { Some(bytes) } else { None } }
        TokenKind::TypeVar => Some(without_mark(bytes)),
        TokenKind::Qualified => None,
        TokenKind::Schem => None,
        TokenKind::BoundName => None,
        TokenKind::Number => None,
        TokenKind::Quote => None,
        TokenKind::Symbol => None,
        TokenKind::End => None,
    }
}

/// Puts the spelling that a token gives behind the others.
fn put_spelling(
    texts: &mut Texts,
    source: &[u8],
    token: &Token,
    is_quoted: bool,
) -> Result<(), AllocError>
    requires { IsSlice source.now token.now }
    ensures { OnOk result (Gains texts.old texts.new (Gives source.now is_quoted token.now)) }
{
    let Some(spelling) = spelling_of(source, token, is_quoted) else {
        return Ok(());
    };
    texts.put(spelling)?;
    Ok(())
}

/// Puts the spellings that the tokens of a quoted text give behind the others.
fn put_spellings(texts: &mut Texts, source: &[u8], tokens: &[Token]) -> Result<(), AllocError>
    requires { Each (IsSlice source.now) tokens.now }
    ensures { OnOk result (Gains texts.old texts.new (λ t. AnyOf (λ token. Gives source.now true token t) tokens.now)) }
{
    for token in tokens {
        put_spelling(texts, source, token, true)?;
    }
    Ok(())
}

/// Puts the spellings in a quoted text behind the others, if its tokens can be read.
fn put_quoted(
    alloc: Global,
    texts: &mut Texts,
    source: &[u8],
    quote: &Token,
) -> Result<(), AllocError>
    requires slice { IsSlice source.now quote.now }
    requires quoted { quote.now.kind ≡ TokenKind.Quote }
    ensures { OnOk result (Gains texts.old texts.new (GivesInside source.now quote.now)) }
{
    match tokens(alloc, source, quote.from + 1, quote.to - 1) {
        Ok(found) => {
            put_spellings(texts, source, found.as_slice())?;
            Ok(())
        }
        Err(LexFault::At { .. }) => Ok(()),
        Err(LexFault::Memory) => Err(AllocError),
    }
}

/// Puts the spellings in a token behind the others, if it is a quoted text.
fn put_inside(
    alloc: Global,
    texts: &mut Texts,
    source: &[u8],
    token: &Token,
) -> Result<(), AllocError>
    requires { IsSlice source.now token.now }
    ensures { OnOk result (Gains texts.old texts.new (GivesInside source.now token.now)) }
{
    match token.kind {
        TokenKind::Quote => {
            put_quoted(alloc, texts, source, token)?;
            Ok(())
        }
        _ => Ok(()),
    }
}

/// Puts what a token of a theory gives behind the others: its spelling, or those in it.
fn put_token(
    alloc: Global,
    texts: &mut Texts,
    source: &[u8],
    token: &Token,
) -> Result<(), AllocError>
    requires { IsSlice source.now token.now }
    ensures { OnOk result (Gains texts.old texts.new (λ t. Gives source.now false token.now t ⊎ GivesInside source.now token.now t)) }
{
    put_spelling(texts, source, token, false)?;
    put_inside(alloc, texts, source, token)?;
    Ok(())
}

/// Puts what the tokens of a theory give behind the others.
fn put_tokens(
    alloc: Global,
    texts: &mut Texts,
    source: &[u8],
    tokens: &[Token],
) -> Result<(), AllocError>
    requires { Each (IsSlice source.now) tokens.now }
    ensures { OnOk result (Gains texts.old texts.new (λ t. AnyOf (λ token. Gives source.now false token t ⊎ GivesInside source.now token t) tokens.now)) }
{
    for token in tokens {
        put_token(alloc, texts, source, token)?;
    }
    Ok(())
}

/// Where the source ends: never farther than the number can say, unless memory fails.
fn end_of(source: &[u8]) -> Result<u32, AllocError>
    ensures { IfOk result (λ end. end ≡ length source.now) }
{
    match u32::try_from(source.len()) {
        Ok(end) => Ok(end),
        Err(_) => Err(AllocError),
    }
}

/// Puts the spellings of a source behind the others.
pub(crate) fn put_source(alloc: Global, texts: &mut Texts, source: &[u8]) -> Result<(), AllocError>
    ensures { OnOk result (Gains texts.old texts.new (IsSpelled source.now)) }
{
    let end = end_of(source)?;
    match tokens(alloc, source, 0, end) {
        Ok(found) => {
            put_tokens(alloc, texts, source, found.as_slice())?;
            Ok(())
        }
        Err(LexFault::At { .. }) => Ok(()),
        Err(LexFault::Memory) => Err(AllocError),
    }
}

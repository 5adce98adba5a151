//! Qualified names among the words.
ghost use Rattle.std.specs.Prelude.{◌≡◌, IfOk};
ghost use Rattle.pure_grammar.specs.Tokens.Bytes.{dot, is_name_byte};
ghost use Rattle.pure_words.specs.Values as spec;

use crate::cancel::parts;
use pure_text::Text;
use std::alloc::{AllocError, Global};

/// How many bytes a spelling may have.
const LONGEST: usize = 64;

/// Whether the byte is a letter, a digit, `_` or `'`.
#[tactic(auto, unfolding(pure_grammar::specs::Tokens::Bytes::is_name_byte, pure_grammar::specs::Tokens::Bytes::is_letter, pure_grammar::specs::Tokens::Bytes::is_digit))]
fn is_name_byte(b: u8) -> bool
    ensures { result ≡ is_name_byte b }
{
    b.is_ascii_alphabetic() || b.is_ascii_digit() || b == b'_' || b == b'\''
}

/// Whether the text is a spelling of at most 64 bytes.
#[tactic(auto, unfolding(pure_grammar::specs::Tokens::Bytes::is_letter))]
fn is_short_spelling(text: &[u8]) -> bool
    ensures { result ≡ spec.is_short_spelling text.now }
{
    if text.is_empty() || text.len() > LONGEST || !text[0].is_ascii_alphabetic() {
        return false;
    }
    for b in text {
        if !is_name_byte(*b) {
            return false;
        }
    }
    true
}

/// Whether the text is two spellings, joined by a dot.
fn is_full_name(alloc: Global, text: &[u8]) -> Result<bool, AllocError>
    ensures { IfOk result (λ is. is ≡ spec.are_spellings (spec.parts dot text.now)) }
{
    let parts = parts(alloc, b'.', text)?;
    if parts.len() != 2 {
        return Ok(false);
    }
    Ok(is_short_spelling(parts[0]) && is_short_spelling(parts[1]))
}

/// The qualified name that the text is, or None where it isn't one.
pub(crate) fn full_name(alloc: Global, text: &[u8]) -> Result<Option<Text>, AllocError>
    ensures { IfOk result (λ found. found ≡ spec.full_name_of text.now) }
{
    if !is_full_name(alloc, text)? {
        return Ok(None);
    }
    let name = Text::make(alloc, text)?;
    Ok(Some(name))
}

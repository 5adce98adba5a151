//! Lists of cancellations.
ghost use Rattle.std.specs.Prelude.{◌≡◌, IfOk, map, option_map};
ghost use Rattle.pure_words.specs.Values as spec;

use crate::job::CancelWord;
use crate::number::number;
use pure_lex::is_identifier;
use pure_text::Text;
use std::alloc::{AllocError, Global};

/// The texts between these bytes.
pub(crate) fn parts(alloc: Global, separator: u8, text: &[u8]) -> Result<Vec<&[u8]>, AllocError>
    ensures { IfOk result (λ parts. map (λ part. part.now) parts.items ≡ spec.parts separator text.now) }
{
    text.split(|b| *b == separator).collect(alloc)
}

/// The cancellation that the text is, or None where it isn't one.
fn cancel(alloc: Global, text: &[u8]) -> Result<Option<CancelWord>, AllocError>
    ensures { IfOk result (λ found. found ≡ spec.cancel_of (spec.parts spec.colon text.now)) }
{
    let parts = parts(alloc, b':', text)?;
    if parts.len() != 2 {
        return Ok(None);
    }
    let group = parts[0];
    if !is_identifier(group) {
        return Ok(None);
    }
    let Some(after) = number(parts[1]) else {
        return Ok(None);
    };
    let group = Text::make(alloc, group)?;
    Ok(Some(CancelWord { group, after }))
}

/// The cancellations that the text lists, or None where it isn't such a list.
pub(crate) fn cancels(alloc: Global, text: &[u8]) -> Result<Option<Vec<CancelWord>>, AllocError>
    ensures { IfOk result (λ found. option_map (λ list. list.items) found ≡ spec.cancels_in (spec.parts spec.comma text.now)) }
{
    let parts = parts(alloc, b',', text)?;
    let mut list = Vec::new(alloc);
    for part in &parts {
        match cancel(alloc, part)? {
            Some(cancel) => list.push(cancel)?,
            None => return Ok(None),
        }
    }
    Ok(Some(list))
}

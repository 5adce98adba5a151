//! Texts written short, so that a row can give a text that is too large to write down.
ghost use Rattle.std.specs.Prelude.{◌≡◌, ◌++◌, IfOk, OnOk, map};
ghost use Rattle.pure_rows.specs.Short as spec;

use crate::parts::parts;
use crate::row::number_of;
use std::alloc::{AllocError, Global};

/// Adds a piece so many times.
fn push_times(text: &mut Vec<u8>, piece: &[u8], times: u32) -> Result<(), AllocError>
    ensures { OnOk result (text.new.items ≡ text.old.items ++ spec.repeated times piece.now) }
{
    for _done in 0..times {
        text.extend_from_slice(piece)?;
    }
    Ok(())
}

/// Adds the text of these parts.
fn push_parts<'p>(text: &mut Vec<u8>, parts: &'p [&'p [u8]]) -> Result<(), AllocError>
    ensures { OnOk result (text.new.items ≡ text.old.items ++ spec.text_of_parts (map (λ part. part.now) parts.now)) }
{
    let mut rest = parts;
    while let [plain, others @ ..] = rest {
        text.extend_from_slice(plain)?;
        let [count, piece, more @ ..] = others else {
            return Ok(());
        };
        push_times(text, piece, number_of(count).unwrap_or(0))?;
        rest = more;
    }
    Ok(())
}

/// The text that is written short so: `@3@ab@` stands for `ababab`.
pub fn text_of(alloc: Global, short: &[u8]) -> Result<Vec<u8>, AllocError>
    ensures { IfOk result (λ text. text.items ≡ spec.text_of short.now) }
{
    let parts = parts(alloc, b'@', short)?;
    let mut text = Vec::new(alloc);
    push_parts(&mut text, &parts)?;
    Ok(text)
}

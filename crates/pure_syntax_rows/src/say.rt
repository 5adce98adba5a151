//! Texts that say what was read.
use std::alloc::{AllocError, Global};

/// Writes more text.
pub(crate) fn say(shown: &mut Vec<u8>, text: &str) -> Result<(), AllocError> {
    shown.extend_from_slice(text.as_bytes())
}

/// Writes a number in decimal.
pub(crate) fn say_number(
    alloc: Global,
    shown: &mut Vec<u8>,
    number: u32,
) -> Result<(), AllocError> {
    say(shown, &number.to_string(alloc)?)
}

/// Whether the place of a fault is written so.
pub(crate) fn is_place(alloc: Global, at: u32, wanted: &[u8]) -> Result<bool, AllocError> {
    let mut shown = Vec::new(alloc);
    say(&mut shown, "at ")?;
    say_number(alloc, &mut shown, at)?;
    Ok(shown.as_slice() == wanted)
}

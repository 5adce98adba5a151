//! A library of which all files but one are missing.
ghost use Rattle.std.specs.Prelude.{◌≤◌, ◌+◌, length, IfOk};

use crate::numbered::numbered_files;
use pure_io::{LibFault, Library, ReadFault};
use pure_text::Text;
use std::alloc::{AllocError, Global};
use std::rt::Files;

/// The text, if it isn't longer than the limit; else memory fails.
fn short_text(alloc: Global, bytes: &[u8], limit: u32) -> Result<Text, AllocError>
    ensures { IfOk result (λ text. length text ≤ limit + 1) }
{
    if bytes.len() > limit as usize {
        return Err(AllocError);
    }
    let text = Text::make(alloc, bytes)?;
    Ok(text)
}

/// Lists so many numbered files, and has the first alone, with this text.
#[derive(Drop)]
pub(crate) struct Dangling<'t> {
    pub(crate) count: u32,
    pub(crate) first: &'t [u8],
}

impl Library for Dangling<'_> {
    ghost use Rattle.std.specs.Prelude.{None};

    ghost files = { λ _. None };

    ghost faults = { λ _. 0 };

    fn names<R: Files + Print + AllocGlobal>(
        &mut self,
        _rt: &R,
        alloc: Global,
    ) -> Result<Vec<Text>, LibFault> {
        match numbered_files(alloc, self.count) {
            Ok(names) => Ok(names),
            Err(_) => Err(LibFault::Memory),
        }
    }

    fn read<R: Files + Print + AllocGlobal>(
        &mut self,
        _rt: &R,
        alloc: Global,
        name: &Text,
        limit: u32,
    ) -> Result<Text, ReadFault> {
        if name.bytes() != b"F000.thy".as_slice() {
            return Err(ReadFault::Missing);
        }
        match short_text(alloc, self.first, limit) {
            Ok(text) => Ok(text),
            Err(_) => Err(ReadFault::Memory),
        }
    }
}

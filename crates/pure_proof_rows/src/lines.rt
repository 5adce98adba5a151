//! The lines of a text.
use std::alloc::{AllocError, Global};

/// The lines of the text.
pub(crate) fn lines_of(alloc: Global, text: &[u8]) -> Result<Vec<&[u8]>, AllocError> {
    text.split(|byte| *byte == b'\n').collect(alloc)
}

//! Texts in the notation of types and terms.
use pure_notation::{Parts, read, read_term};
use pure_term::Term;
use std::alloc::Global;

/// The term that the text writes; none where it writes none, or there is no memory.
pub fn term(alloc: Global, text: &[u8]) -> Option<Term> {
    read_term(alloc, text).ok()
}

/// The types and the terms that the text writes; none where it isn't in the notation, or there is no memory.
pub fn parts(alloc: Global, text: &[u8]) -> Option<Parts> {
    read(alloc, text).ok()
}

/// The bytes before the first mark, and those behind it. Where there is no mark, all are before it.
pub fn cut(text: &[u8], mark: u8) -> (&[u8], &[u8]) {
    match text.iter().position(|byte| *byte == mark) {
        Some(at) => (&text[..at], &text[at + 1..]),
        None => (text, b""),
    }
}

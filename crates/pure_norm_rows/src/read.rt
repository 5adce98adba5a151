//! What the fields of rows write.
use pure_notation::{NotationFault, read_term};
use pure_rows::Fault;
use pure_term::Term;
use std::alloc::Global;

/// The term of the text.
pub(crate) fn term(alloc: Global, text: &[u8]) -> Result<Term, Fault> {
    match read_term(alloc, text) {
        Ok(term) => Ok(term),
        Err(NotationFault::Memory) => Err(Fault::Memory),
        Err(_) => Err(Fault::Unreadable),
    }
}

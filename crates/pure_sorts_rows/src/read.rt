//! What the fields of rows write.
use pure_notation::{NotationFault, Parts, read, read_term, read_typ};
use pure_rows::Fault;
use pure_term::Term;
use pure_typ::Typ;
use std::alloc::Global;

/// Why nothing comes of a text that isn't read.
fn unread(fault: NotationFault) -> Fault {
    match fault {
        NotationFault::Memory => Fault::Memory,
        _ => Fault::Unreadable,
    }
}

/// The field, in which `-` stands for nothing.
pub(crate) fn written(field: &[u8]) -> &[u8] {
    if field == b"-".as_slice() { b"" } else { field }
}

/// The number below 2^32 that is written so.
pub(crate) fn number(digits: &[u8]) -> Result<u32, Fault> {
    let Ok(text) = str::from_utf8(digits) else {
        return Err(Fault::Unreadable);
    };
    match text.parse::<u32>() {
        Ok(number) => Ok(number),
        Err(_) => Err(Fault::Unreadable),
    }
}

/// The term of the text.
pub(crate) fn term(alloc: Global, text: &[u8]) -> Result<Term, Fault> {
    match read_term(alloc, text) {
        Ok(term) => Ok(term),
        Err(fault) => Err(unread(fault)),
    }
}

/// The type of the text.
pub(crate) fn typ(alloc: Global, text: &[u8]) -> Result<Typ, Fault> {
    match read_typ(alloc, text) {
        Ok(typ) => Ok(typ),
        Err(fault) => Err(unread(fault)),
    }
}

/// The types of the text, which writes no terms.
pub(crate) fn typs(alloc: Global, text: &[u8]) -> Result<Vec<Typ>, Fault> {
    match read(alloc, text) {
        Ok(Parts { typs, terms }) if terms.is_empty() => Ok(typs),
        Ok(_) => Err(Fault::Unreadable),
        Err(fault) => Err(unread(fault)),
    }
}

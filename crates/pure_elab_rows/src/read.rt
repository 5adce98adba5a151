//! What the fields of rows write: texts, and terms and types in the notation.
use pure_elab::ElabFault;
use pure_lex::{LexFault, tokens};
use pure_notation::{NotationFault, read_term, read_typ};
use pure_read::{Raw, RawFault, RawTyp, read_raw, read_raw_typ};
use pure_rows::Outcome;
use pure_term::Term;
use pure_typ::Typ;
use std::alloc::Global;

/// What a row wants: what a text says, or a fault. It may have no reading.
pub(crate) type Wanted<T> = Result<Result<T, ElabFault>, Outcome>;

/// More bytes than any text of a row has.
const MOST_BYTES: usize = 1000;

/// The outcome of a row whose text has no tokens.
fn without_tokens(fault: LexFault) -> Outcome {
    match fault {
        LexFault::Memory => Outcome::Memory,
        LexFault::At { .. } => Outcome::Unreadable,
    }
}

/// The outcome of a row whose text isn't read.
fn without_tree(fault: RawFault) -> Outcome {
    match fault {
        RawFault::Memory => Outcome::Memory,
        _ => Outcome::Unreadable,
    }
}

/// The outcome of a row whose text isn't in the notation.
fn unread(fault: NotationFault) -> Outcome {
    match fault {
        NotationFault::Memory => Outcome::Memory,
        _ => Outcome::Unreadable,
    }
}

/// The written term.
pub(crate) fn raw_of(alloc: Global, text: &[u8]) -> Result<Raw, Outcome> {
    if text.len() > MOST_BYTES {
        return Err(Outcome::Unreadable);
    }
    match tokens(alloc, text, 0, text.len() as u32) {
        Ok(tokens) => read_raw(alloc, text, &tokens).map_err(without_tree),
        Err(fault) => Err(without_tokens(fault)),
    }
}

/// The written type.
pub(crate) fn raw_typ_of(alloc: Global, text: &[u8]) -> Result<RawTyp, Outcome> {
    if text.len() > MOST_BYTES {
        return Err(Outcome::Unreadable);
    }
    match tokens(alloc, text, 0, text.len() as u32) {
        Ok(tokens) => read_raw_typ(alloc, text, &tokens).map_err(without_tree),
        Err(fault) => Err(without_tokens(fault)),
    }
}

/// The type of the notation.
pub(crate) fn typ_of(alloc: Global, text: &[u8]) -> Result<Typ, Outcome> {
    read_typ(alloc, text).map_err(unread)
}

/// The type of the notation, as what a row wants.
pub(crate) fn typ_wanted(alloc: Global, text: &[u8]) -> Wanted<Typ> {
    match read_typ(alloc, text) {
        Ok(typ) => Ok(Ok(typ)),
        Err(fault) => Err(unread(fault)),
    }
}

/// The term of the notation, as what a row wants.
pub(crate) fn term_wanted(alloc: Global, text: &[u8]) -> Wanted<Term> {
    match read_term(alloc, text) {
        Ok(term) => Ok(Ok(term)),
        Err(fault) => Err(unread(fault)),
    }
}

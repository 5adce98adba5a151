//! The trees of terms and types, and the places of their faults.
use crate::say::{is_place, say};
use crate::source::tokens_of;
use crate::term::{say_term, say_typ};
use pure_read::{Raw, RawFault, RawTyp, read_raw, read_raw_typ};
use pure_rows::{Outcome, Row, Subject, text_of};
use std::alloc::{AllocError, Global};
use std::rt::Files;

/// The reading of inner texts.
pub(crate) struct Texts;

impl Subject for Texts {
    fn outcome<R: Files + Print + AllocGlobal>(
        &self,
        _rt: &R,
        alloc: Global,
        row: &Row,
    ) -> Outcome {
        if row.len() != 3 {
            return Outcome::Unreadable;
        }
        let source = row.field(1);
        let wanted = row.field(2);
        match row.field(0) {
            b"term" => outcome_of(alloc, Kind::Term, source, wanted),
            b"type" => outcome_of(alloc, Kind::Type, source, wanted),
            b"long-term" => long_outcome(alloc, Kind::Term, source, wanted),
            b"long-type" => long_outcome(alloc, Kind::Type, source, wanted),
            _ => Outcome::Unreadable,
        }
    }
}

/// What a text is read as.
#[derive(Clone, Copy)]
enum Kind {
    Term,
    Type,
}

/// Whether the term's tree is written so.
fn is_term(alloc: Global, term: &Raw, wanted: &[u8]) -> Result<bool, AllocError> {
    let mut shown = Vec::new(alloc);
    say_term(alloc, &mut shown, term)?;
    Ok(shown.as_slice() == wanted)
}

/// Whether the type's tree is written so.
fn is_typ(alloc: Global, typ: &RawTyp, wanted: &[u8]) -> Result<bool, AllocError> {
    let mut shown = Vec::new(alloc);
    say_typ(alloc, &mut shown, typ)?;
    Ok(shown.as_slice() == wanted)
}

/// Whether the fault is written so.
fn is_fault(alloc: Global, fault: RawFault, wanted: &[u8]) -> Result<bool, AllocError> {
    match fault {
        RawFault::TooLong => Ok(wanted == b"too long".as_slice()),
        RawFault::Syntax { at } => is_place(alloc, at, wanted),
        RawFault::Memory => Err(AllocError),
    }
}

/// Whether the text is read so, or none where it has no tokens.
fn is_read_as(
    alloc: Global,
    kind: Kind,
    source: &[u8],
    wanted: &[u8],
) -> Result<Option<bool>, AllocError> {
    let Some(found) = tokens_of(alloc, source)? else {
        return Ok(None);
    };
    let holds = match kind {
        Kind::Term => match read_raw(alloc, source, &found) {
            Ok(term) => is_term(alloc, &term, wanted)?,
            Err(fault) => is_fault(alloc, fault, wanted)?,
        },
        Kind::Type => match read_raw_typ(alloc, source, &found) {
            Ok(typ) => is_typ(alloc, &typ, wanted)?,
            Err(fault) => is_fault(alloc, fault, wanted)?,
        },
    };
    Ok(Some(holds))
}

/// What comes of a row of a text.
fn outcome_of(alloc: Global, kind: Kind, source: &[u8], wanted: &[u8]) -> Outcome {
    match is_read_as(alloc, kind, source, wanted) {
        Ok(Some(holds)) => Outcome::of(holds),
        Ok(None) => Outcome::Unreadable,
        Err(_) => Outcome::Memory,
    }
}

/// What comes of a row of a text that is written short.
fn long_outcome(alloc: Global, kind: Kind, short: &[u8], wanted: &[u8]) -> Outcome {
    match text_of(alloc, short) {
        Ok(source) => outcome_of(alloc, kind, &source, wanted),
        Err(_) => Outcome::Memory,
    }
}

//! What comes of the text of a record.
ghost use Rattle.std.specs.Prelude.{◌<◌, length};

use crate::source::tokens_of;
use pure_lex::line_col;
use pure_record::{Record, RecordFault, read_record};
use pure_record_print::print_record;
use pure_rows::{Outcome, Row, Subject, text_of};
use pure_text::Text;
use std::alloc::{AllocError, Global};
use std::rt::Files;

/// The reading of records, and their printing.
pub(crate) struct Records;

impl Subject for Records {
    fn outcome<R: Files + Print + AllocGlobal>(
        &self,
        _rt: &R,
        alloc: Global,
        row: &Row,
    ) -> Outcome {
        match (row.field(0), row.len()) {
            (b"record", 3) => outcome_of(alloc, row.field(1), row.field(2)),
            (b"long", 3) => long_outcome(alloc, row.field(1), row.field(2)),
            (b"print", 3) => print_outcome(alloc, row.field(1), row.field(2)),
            (b"cut", 2) => Outcome::of_answer(are_cuts_refused(alloc, row.field(1))),
            _ => Outcome::Unreadable,
        }
    }
}

/// What a record says in a word: how many names, items and lines it has.
fn said(alloc: Global, found: &Record) -> Result<String, AllocError> {
    let names = found.names.first_fresh().saturating_sub(6);
    let items = found.items.len();
    let lines = found.lines.len();
    format!(in alloc; "{names} names, {items} items, {lines} lines")
}

/// What is said of a fault: its kind and its place.
fn fault_said(alloc: Global, source: &[u8], kind: &str, at: u32) -> Result<String, AllocError>
    requires { length source.now < 4294967295 }
{
    if at as usize > source.len() {
        return Err(AllocError);
    }
    let (line, column) = line_col(source, at);
    format!(in alloc; "{kind} at {line}:{column}")
}

/// What the source is read as, in a word; none where it has no tokens.
fn read_as(alloc: Global, source: &[u8]) -> Result<Option<String>, AllocError> {
    let Some(found) = tokens_of(alloc, source)? else {
        return Ok(None);
    };
    match read_record(alloc, source, &found) {
        Ok(read) => Ok(Some(said(alloc, &read)?)),
        Err(RecordFault::TooLong { at }) => Ok(Some(fault_said(alloc, source, "too long", at)?)),
        Err(RecordFault::Syntax { at }) => Ok(Some(fault_said(alloc, source, "syntax", at)?)),
        Err(RecordFault::Memory) => Err(AllocError),
    }
}

/// What comes of a row of a record.
fn outcome_of(alloc: Global, source: &[u8], wanted: &[u8]) -> Outcome {
    match read_as(alloc, source) {
        Ok(Some(read)) => Outcome::of(read.as_bytes() == wanted),
        Ok(None) => Outcome::of(wanted == b"no tokens".as_slice()),
        Err(_) => Outcome::Memory,
    }
}

/// What comes of a row of a record that is written short.
fn long_outcome(alloc: Global, short: &[u8], wanted: &[u8]) -> Outcome {
    match text_of(alloc, short) {
        Ok(source) => outcome_of(alloc, &source, wanted),
        Err(_) => Outcome::Memory,
    }
}

/// The text that is printed of the record that the source spells; none where it spells none.
fn printed(alloc: Global, source: &[u8]) -> Result<Option<Text>, AllocError> {
    let Some(found) = tokens_of(alloc, source)? else {
        return Ok(None);
    };
    match read_record(alloc, source, &found) {
        Ok(read) => Ok(Some(print_record(alloc, &read)?)),
        Err(RecordFault::TooLong { .. }) => Ok(None),
        Err(RecordFault::Syntax { .. }) => Ok(None),
        Err(RecordFault::Memory) => Err(AllocError),
    }
}

/// Whether the record that the source spells is printed so, and what is printed is read and printed again.
fn is_printed_so(alloc: Global, source: &[u8], wanted: &[u8]) -> Result<bool, AllocError> {
    let Some(text) = printed(alloc, source)? else {
        return Ok(false);
    };
    let Some(again) = printed(alloc, text.bytes())? else {
        return Ok(false);
    };
    Ok(text.bytes() == wanted && again.bytes() == wanted)
}

/// What comes of a row of a printed record.
fn print_outcome(alloc: Global, source: &[u8], wanted: &[u8]) -> Outcome {
    Outcome::of_answer(is_printed_so(alloc, source, wanted))
}

/// Whether the front of a record, which is cut before its last token ends, is refused at a place in it, or has no tokens.
fn is_cut_refused(alloc: Global, front: &[u8]) -> Result<bool, AllocError> {
    let Some(found) = tokens_of(alloc, front)? else {
        return Ok(true);
    };
    match read_record(alloc, front, &found) {
        Ok(_) => Ok(false),
        Err(RecordFault::TooLong { .. }) => Ok(false),
        Err(RecordFault::Syntax { at }) => Ok(at as usize <= front.len()),
        Err(RecordFault::Memory) => Err(AllocError),
    }
}

/// Whether each front of the record is refused.
fn are_cuts_refused(alloc: Global, source: &[u8]) -> Result<bool, AllocError> {
    for end in 0..source.len() {
        if !is_cut_refused(alloc, &source[..end])? {
            return Ok(false);
        }
    }
    Ok(true)
}

//! Words of runs, statuses and numbers, as they are written.
use crate::marks::{is_blank, is_comma};
use pure_check::Status;
use pure_rows::{Fault, named, number_of};
use pure_text::Text;
use std::alloc::{AllocError, Global};

/// What stands for none.
const NONE: &[u8] = b"-";

/// What stands for a word without bytes.
const EMPTY: &[u8] = b"''";

/// What is given so: nothing by a stroke, and else the field itself.
pub(crate) fn given(field: &[u8]) -> &[u8] {
    if field == NONE { b"" } else { field }
}

/// Adds the word that is written so.
fn push_word(alloc: Global, words: &mut Vec<Text>, written: &[u8]) -> Result<(), AllocError> {
    let word = if written == EMPTY { b"" } else { written };
    words.push(Text::make(alloc, word)?)?;
    Ok(())
}

/// The words that stand in the line, with blanks between them.
pub(crate) fn words_of(alloc: Global, line: &[u8]) -> Result<Vec<Text>, AllocError> {
    let mut words = Vec::new(alloc);
    for word in given(line).split(is_blank) {
        if !word.is_empty() {
            push_word(alloc, &mut words, word)?;
        }
    }
    Ok(words)
}

/// The names of statuses.
const STATUSES: [(&[u8], Status); 6] = [
    (b"clean", Status::Clean),
    (b"rows", Status::Rows),
    (b"usage", Status::Usage),
    (b"read_fault", Status::ReadFault),
    (b"write_fault", Status::WriteFault),
    (b"memory", Status::Memory),
];

/// The status with the name.
pub(crate) fn status_named(name: &[u8]) -> Result<Status, Fault> {
    named(&STATUSES, name).ok_or(Fault::Unreadable)
}

/// The number that is written so.
pub(crate) fn number(written: &[u8]) -> Result<u32, Fault> {
    number_of(written).ok_or(Fault::Unreadable)
}

/// The numbers that are written so, with commas between them.
pub(crate) fn numbers(alloc: Global, written: &[u8]) -> Result<Vec<u32>, Fault> {
    let mut numbers = Vec::new(alloc);
    if written == NONE {
        return Ok(numbers);
    }
    for part in written.split(is_comma) {
        numbers.push(number(part)?)?;
    }
    Ok(numbers)
}

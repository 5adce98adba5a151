//! The names of each base.
use crate::read::number;
use crate::texts::are_session_texts;
use pure_rows::Fault;
use pure_term::{Name, Names, Text};
use std::alloc::{AllocError, Global};

/// The field, in which `-` stands for nothing.
fn written(field: &[u8]) -> &[u8] {
    if field == b"-".as_slice() { b"" } else { field }
}

/// The texts in the field, with a blank between two.
fn texts_of(alloc: Global, field: &[u8]) -> Result<Vec<Text>, AllocError> {
    let mut texts = Vec::new(alloc);
    for word in written(field).split(|byte| *byte == b' ') {
        if !word.is_empty() {
            texts.push(Text::make(alloc, word)?)?;
        }
    }
    Ok(texts)
}

/// The numbers in the field, with a blank between two.
fn numbers_of(alloc: Global, field: &[u8]) -> Result<Vec<Name>, Fault> {
    let mut numbers = Vec::new(alloc);
    for word in written(field).split(|byte| *byte == b' ') {
        if !word.is_empty() {
            numbers.push(Name(number(word)?))?;
        }
    }
    Ok(numbers)
}

/// The names of a session with these texts.
fn session(alloc: Global, texts: Vec<Text>) -> Result<Names, Fault> {
    let own = Names::make(alloc, Vec::new(alloc))?;
    if !are_session_texts(&texts, &own) {
        return Err(Fault::Unreadable);
    }
    Ok(Names::make(alloc, texts)?)
}

/// Whether these are the numbers of the names with the base, in a session of these texts.
pub(crate) fn have_base(
    alloc: Global,
    texts: &[u8],
    base: &[u8],
    numbers: &[u8],
) -> Result<bool, Fault> {
    let numbers = numbers_of(alloc, numbers)?;
    let names = session(alloc, texts_of(alloc, texts)?)?.by_base(alloc)?;
    Ok(names.with_base(written(base)) == numbers.as_slice())
}

//! Theories with numbers for names.
use crate::directories::{joined, theory_file};
use pure_io::File;
use pure_rows::number_of;
use pure_text::Text;
use std::alloc::{AllocError, Global};

/// The last decimal digit of the number.
fn digit(number: usize) -> u8 {
    b'0' + (number % 10) as u8
}

/// The name of the theory with this number: F and three digits.
fn numbered(number: usize) -> [u8; 4] {
    [b'F', digit(number / 100), digit(number / 10), digit(number)]
}

/// The names of so many numbered files.
pub(crate) fn numbered_files(alloc: Global, count: u32) -> Result<Vec<Text>, AllocError> {
    let mut names = Vec::new(alloc);
    for number in 0..count as usize {
        let name = joined(alloc, &[&numbered(number), b".thy"])?;
        names.push(name)?;
    }
    Ok(names)
}

/// The numbers with blanks between them; none where one isn't a number.
pub(crate) fn numbers_of(alloc: Global, text: &[u8]) -> Result<Option<Vec<u32>>, AllocError> {
    let mut numbers = Vec::new(alloc);
    for word in text.split(|byte| *byte == b' ') {
        if !word.is_empty() {
            match number_of(word) {
                Some(number) => numbers.push(number)?,
                None => return Ok(None),
            }
        }
    }
    Ok(Some(numbers))
}

/// A piece so many times.
fn repeated(alloc: Global, piece: &[u8], times: u32) -> Result<Vec<u8>, AllocError> {
    let mut text = Vec::new(alloc);
    for _ in 0..times {
        text.extend_from_slice(piece)?;
    }
    Ok(text)
}

/// The numbered file with so many commands.
fn counted_file(alloc: Global, number: usize, count: u32) -> Result<File, AllocError> {
    let theory = numbered(number);
    let commands = repeated(alloc, b" class c", count)?;
    let text = joined(alloc, &[b"theory ", &theory, b" begin", &commands, b" end"])?;
    theory_file(alloc, &theory, text)
}

/// Appends numbered files with so many commands each.
pub(crate) fn put_counted(
    alloc: Global,
    files: &mut Vec<File>,
    counts: &[u32],
) -> Result<bool, AllocError> {
    for (number, count) in counts.iter().enumerate() {
        let file = counted_file(alloc, number, *count)?;
        files.push(file)?;
    }
    Ok(true)
}

/// How many of the theories before it the theory of this number imports: all, or the one before it.
fn parent_count(number: usize, all: bool) -> usize {
    if all { number } else { number.min(1) }
}

/// The names of so many theories before that of this number, with a blank before each.
fn names_before(alloc: Global, number: usize, count: usize) -> Result<Vec<u8>, AllocError> {
    let mut names = Vec::new(alloc);
    for parent in number.saturating_sub(count)..number {
        names.push(b' ')?;
        names.extend_from_slice(&numbered(parent))?;
    }
    Ok(names)
}

/// The numbered file that imports Pure and so many theories before it.
fn linked_file(alloc: Global, number: usize, count: usize) -> Result<File, AllocError> {
    let theory = numbered(number);
    let parents = names_before(alloc, number, count)?;
    let text = joined(
        alloc,
        &[
            b"theory ",
            &theory,
            b" imports Pure",
            &parents,
            b" begin end",
        ],
    )?;
    theory_file(alloc, &theory, text)
}

/// Appends so many numbered files, each of which imports all before it, or the one before it.
pub(crate) fn put_linked(
    alloc: Global,
    files: &mut Vec<File>,
    count: u32,
    all: bool,
) -> Result<bool, AllocError> {
    for number in 0..count as usize {
        let file = linked_file(alloc, number, parent_count(number, all))?;
        files.push(file)?;
    }
    Ok(true)
}

/// How many parents beside Pure each of the theories has, with a blank behind each.
pub(crate) fn linked_counts(alloc: Global, count: u32, all: bool) -> Result<Vec<u8>, AllocError> {
    let mut text = Vec::new(alloc);
    for number in 0..count as usize {
        put_count(alloc, &mut text, parent_count(number, all))?;
    }
    Ok(text)
}

/// Writes the count with a blank behind it.
pub(crate) fn put_count(alloc: Global, text: &mut Vec<u8>, count: usize) -> Result<(), AllocError> {
    let digits = count.to_string(alloc)?;
    text.extend_from_slice(digits.as_bytes())?;
    text.push(b' ')?;
    Ok(())
}

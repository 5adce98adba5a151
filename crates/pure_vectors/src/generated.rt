//! Libraries that are made from numbers.
use crate::files::files_of;
use crate::words::number;
use pure_gen::generate;
use pure_io::File;
use pure_rows::{Fault, Row};
use std::alloc::Global;

/// The library of these numbers, which are within the bounds of the words.
fn library(
    alloc: Global,
    start: &[u8],
    theories: &[u8],
    lemmas: &[u8],
) -> Result<Vec<File>, Fault> {
    let start = number(start)?;
    let theories = number(theories)?;
    let lemmas = number(lemmas)?;
    if start > 65536 || theories > 64 || lemmas > 512 {
        return Err(Fault::Unreadable);
    }
    Ok(generate(alloc, start, theories, lemmas)?)
}

/// Whether these are the same files.
fn are_same(files: &[File], wanted: &[File]) -> bool {
    if files.len() != wanted.len() {
        return false;
    }
    for (file, other) in files.iter().zip(wanted.iter()) {
        if file.name != other.name || file.text != other.text {
            return false;
        }
    }
    true
}

/// Whether the files of these fields are the same.
fn are_fields(alloc: Global, files: &[File], fields: &[Vec<u8>]) -> Result<bool, Fault> {
    let wanted = files_of(alloc, fields)?;
    Ok(are_same(files, &wanted))
}

/// Whether the row `generates START THEORIES LEMMAS NAME TEXT ..` holds.
pub(crate) fn generates(alloc: Global, row: &Row) -> Result<bool, Fault> {
    let [_, start, theories, lemmas, ..] = row.fields_from(0) else {
        return Err(Fault::Unreadable);
    };
    let files = library(alloc, start, theories, lemmas)?;
    are_fields(alloc, &files, row.fields_from(4))
}

/// Whether there is a file with the place that has the name, and a text that begins so.
fn is_there(files: &[File], place: usize, name: &[u8], front: &[u8]) -> bool {
    match files.get(place) {
        Some(file) => file.name.bytes() == name && file.text.bytes().starts_with(front),
        None => false,
    }
}

/// Whether the row `generates_file START THEORIES LEMMAS COUNT PLACE NAME FRONT` holds.
pub(crate) fn generates_file(alloc: Global, row: &Row) -> Result<bool, Fault> {
    let [_, start, theories, lemmas, count, place, name, front] = row.fields_from(0) else {
        return Err(Fault::Unreadable);
    };
    let count = number(count)? as usize;
    let place = number(place)? as usize;
    let files = library(alloc, start, theories, lemmas)?;
    Ok(files.len() == count && is_there(&files, place, name, front))
}

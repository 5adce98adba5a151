//! Shelves of few pairs with the lengths of their runs, and a shelf that grows in two ways.
use pure_rows::{Outcome, Row};
use pure_shared_maps::Shelf;
use std::alloc::{AllocError, Global};
use std::str::from_utf8;
use std::sync::Arc;

/// A key that no row has.
const ABSENT: u32 = 100;

/// The number that the digits write.
fn number_in(digits: &[u8]) -> Option<u32> {
    from_utf8(digits).ok()?.parse().ok()
}

/// The numbers between the blanks, or none where one is none. A line stands for no numbers.
fn numbers_in(alloc: Global, written: &[u8]) -> Result<Option<Vec<u32>>, AllocError> {
    let mut numbers = Vec::new(alloc);
    if written == b"-".as_slice() {
        return Ok(Some(numbers));
    }
    for digits in written.split(|byte| *byte == b' ') {
        match number_in(digits) {
            Some(number) => numbers.push(number)?,
            None => return Ok(None),
        }
    }
    Ok(Some(numbers))
}

/// The value of a key in the shelf.
fn value_of(key: u32) -> u32 {
    key / 2
}

/// The shelf with this pair, if it hasn't the key yet.
fn put(alloc: Global, shelf: &Shelf<u32>, key: u32, value: u32) -> Result<Shelf<u32>, AllocError> {
    if shelf.get(key).is_some() || shelf.count() == u32::MAX {
        return shelf.share();
    }
    shelf.with(key, Arc::new(alloc, value)?)
}

/// A shelf with these keys.
fn filled(alloc: Global, keys: &[u32]) -> Result<Shelf<u32>, AllocError> {
    let mut shelf = Shelf::empty(alloc);
    for key in keys {
        shelf = put(alloc, &shelf, *key, value_of(*key))?;
    }
    Ok(shelf)
}

/// Whether the shelf's runs have these lengths.
fn has_runs(shelf: &Shelf<u32>, lengths: &[u32]) -> bool {
    let mut rest = lengths;
    for place in 0..shelf.runs() {
        match rest.split_first() {
            Some((length, others)) if *length == shelf.run_len(place) => rest = others,
            _ => return false,
        }
    }
    rest.is_empty()
}

/// Whether the shelf has this value at the key.
fn has(shelf: &Shelf<u32>, key: u32, value: u32) -> bool {
    shelf.get(key).copied() == Some(value)
}

/// Whether the shelf has each key with its value.
fn has_all(shelf: &Shelf<u32>, keys: &[u32]) -> bool {
    for key in keys {
        if !has(shelf, *key, value_of(*key)) {
            return false;
        }
    }
    true
}

/// A value that may cross threads.
fn crosses<T: Send + Sync>(_value: &T) {}

/// Whether the shelf has these keys and no other, and runs of these lengths.
fn is_shelf_of(shelf: &Shelf<u32>, keys: &[u32], lengths: &[u32]) -> bool {
    crosses(shelf);
    has_runs(shelf, lengths)
        && has_all(shelf, keys)
        && shelf.get(ABSENT).is_none()
        && shelf.count() as usize == keys.len()
}

/// Whether a shelf of these keys has them and runs of these lengths, and so has one that shares its runs.
fn fills(alloc: Global, keys: &[u32], lengths: &[u32]) -> Result<bool, AllocError> {
    let shelf = filled(alloc, keys)?;
    let same = shelf.share()?;
    Ok(is_shelf_of(&shelf, keys, lengths) && is_shelf_of(&same, keys, lengths))
}

/// Whether the shelves that grow from one by a new key, each with its own value, have it and the old keys, and the old shelf
/// hasn't it.
fn grows_in_two_ways(
    alloc: Global,
    old: &Shelf<u32>,
    keys: &[u32],
    key: u32,
    lengths: &[u32],
) -> Result<bool, AllocError> {
    let first = put(alloc, old, key, 70)?;
    let second = put(alloc, &old.share()?, key, 71)?;
    let is_each = has(&first, key, 70) && has(&second, key, 71) && old.get(key).is_none();
    let has_old = has_all(old, keys) && has_all(&first, keys) && has_all(&second, keys);
    Ok(is_each && has_old && has_runs(&first, lengths))
}

/// Whether a shelf of these keys, with runs of the first lengths, grows to the second by the new key in two ways.
fn branches(
    alloc: Global,
    keys: &[u32],
    lengths: &[u32],
    key: u32,
    grown: &[u32],
) -> Result<bool, AllocError> {
    let old = filled(alloc, keys)?;
    let holds = grows_in_two_ways(alloc, &old, keys, key, grown)?;
    Ok(holds && has_runs(&old, lengths))
}

/// What comes of a row of a shelf.
pub(crate) fn runs_outcome(alloc: Global, keys: &[u8], lengths: &[u8]) -> Outcome {
    match (numbers_in(alloc, keys), numbers_in(alloc, lengths)) {
        (Ok(Some(keys)), Ok(Some(lengths))) => Outcome::of_answer(fills(alloc, &keys, &lengths)),
        (Err(_), _) | (_, Err(_)) => Outcome::Memory,
        _ => Outcome::Unreadable,
    }
}

/// What comes of a row of a shelf that grows in two ways.
pub(crate) fn branches_outcome(alloc: Global, row: &Row) -> Outcome {
    let Some(key) = row.number(3) else {
        return Outcome::Unreadable;
    };
    let keys = numbers_in(alloc, row.field(1));
    let lengths = numbers_in(alloc, row.field(2));
    let grown = numbers_in(alloc, row.field(4));
    match (keys, lengths, grown) {
        (Ok(Some(keys)), Ok(Some(lengths)), Ok(Some(grown))) => {
            Outcome::of_answer(branches(alloc, &keys, &lengths, key, &grown))
        }
        (Err(_), _, _) | (_, Err(_), _) | (_, _, Err(_)) => Outcome::Memory,
        _ => Outcome::Unreadable,
    }
}

//! The words of the rows.
use crate::dangling::Dangling;
use crate::directories::put_files;
use crate::numbered::{linked_counts, numbers_of, put_counted, put_linked};
use crate::written::{Form, loaded};
use pure_io::{File, MemLibrary};
use pure_rows::{Outcome, Row, text_of};
use std::alloc::{AllocError, Global};
use std::rt::Files;
use std::thread::Threads;

/// What a row says.
#[derive(Clone, Copy)]
enum Word {
    /// A directory and its session.
    Load,
    /// A directory and the names of its session.
    Names,
    /// A call that fails, a directory and its session.
    Failing,
    /// How many commands numbered files have, files behind them, and what is refused.
    Counted,
    /// How many numbered files there are, and what each imports.
    Chain,
    /// How many numbered files there are, the text of the first, and how the session ends.
    Missing,
}

/// The words with how many fields a row of each has.
static WORDS: [(&[u8], usize, Word); 6] = [
    (b"load", 3, Word::Load),
    (b"names", 3, Word::Names),
    (b"failing", 4, Word::Failing),
    (b"counted", 4, Word::Counted),
    (b"chain", 3, Word::Chain),
    (b"missing", 4, Word::Missing),
];

/// The call that reads a file behind 256 others.
const BEHIND: u32 = 257;

/// The word of the row.
fn word_of(row: &Row) -> Option<Word> {
    for (text, fields, word) in WORDS {
        if row.field(0) == text && row.len() == fields {
            return Some(word);
        }
    }
    None
}

/// The field, where `-` stands for nothing.
fn given(row: &Row, place: usize) -> &[u8] {
    let field = row.field(place);
    if field == b"-".as_slice() { b"" } else { field }
}

/// Whether each theory of a chain imports all before it, or the one before it.
fn imports_all(row: &Row) -> Option<bool> {
    let field = row.field(2);
    if field == b"all".as_slice() {
        return Some(true);
    }
    if field == b"one".as_slice() {
        return Some(false);
    }
    None
}

/// Appends the files of a directory that is written short.
fn put_short(alloc: Global, files: &mut Vec<File>, short: &[u8]) -> Result<bool, AllocError> {
    let directory = text_of(alloc, short)?;
    put_files(alloc, files, &directory)?;
    Ok(true)
}

/// Appends numbered files with so many commands each, if the counts can be read.
fn put_counts(alloc: Global, files: &mut Vec<File>, short: &[u8]) -> Result<bool, AllocError> {
    let text = text_of(alloc, short)?;
    match numbers_of(alloc, &text)? {
        Some(counts) => put_counted(alloc, files, &counts),
        None => Ok(false),
    }
}

/// Appends the row's numbered files, and those behind them.
fn put_both(alloc: Global, files: &mut Vec<File>, row: &Row) -> Result<bool, AllocError> {
    if put_counts(alloc, files, row.field(1))? {
        return put_short(alloc, files, given(row, 2));
    }
    Ok(false)
}

/// Appends the files of the row's chain.
fn put_chain(alloc: Global, files: &mut Vec<File>, row: &Row) -> Result<bool, AllocError> {
    match (row.number(1), imports_all(row)) {
        (Some(count), Some(all)) => put_linked(alloc, files, count, all),
        _ => Ok(false),
    }
}

/// Appends the files of the row, if they can be read.
fn put_row(
    alloc: Global,
    files: &mut Vec<File>,
    word: Word,
    row: &Row,
) -> Result<bool, AllocError> {
    match word {
        Word::Load | Word::Names => put_short(alloc, files, given(row, 1)),
        Word::Failing if row.number(1).is_some() => put_short(alloc, files, given(row, 2)),
        Word::Counted => put_both(alloc, files, row),
        Word::Chain => put_chain(alloc, files, row),
        _ => Ok(false),
    }
}

/// The call that fails.
fn failing_call(word: Word, row: &Row) -> Option<u32> {
    match word {
        Word::Failing => row.number(1),
        Word::Counted => Some(BEHIND),
        _ => None,
    }
}

/// The list of that call.
fn failing_calls(alloc: Global, word: Word, row: &Row) -> Result<Vec<u32>, AllocError> {
    let mut calls = Vec::new(alloc);
    if let Some(call) = failing_call(word, row) {
        calls.push(call)?;
    }
    Ok(calls)
}

/// In which form the session is looked at.
fn form_of(word: Word) -> Form {
    match word {
        Word::Names => Form::Names,
        Word::Counted => Form::Rest,
        Word::Chain => Form::Counts,
        _ => Form::Whole,
    }
}

/// What the row wants of the session.
fn wanted(alloc: Global, word: Word, row: &Row) -> Result<Vec<u8>, AllocError> {
    match (word, row.number(1), imports_all(row)) {
        (Word::Chain, Some(count), Some(all)) => linked_counts(alloc, count, all),
        _ => Vec::from_slice(alloc, given(row, row.len().saturating_sub(1))),
    }
}

/// Whether the session of the library is what the row wants.
fn judged<R: Files + Print + AllocGlobal, T: Threads + Sync>(
    rt: &R,
    alloc: Global,
    threads: &T,
    library: &mut MemLibrary,
    word: Word,
    row: &Row,
) -> Result<Outcome, AllocError> {
    let wanted = wanted(alloc, word, row)?;
    let text = loaded(rt, alloc, library, threads, form_of(word))?;
    Ok(Outcome::of(text == wanted))
}

/// What comes of a row with files of its own.
fn outcome_of_files<R: Files + Print + AllocGlobal, T: Threads + Sync>(
    rt: &R,
    alloc: Global,
    threads: &T,
    word: Word,
    row: &Row,
) -> Result<Outcome, AllocError> {
    let calls = failing_calls(alloc, word, row)?;
    let mut files = Vec::new(alloc);
    if !put_row(alloc, &mut files, word, row)? {
        return Ok(Outcome::Unreadable);
    }
    let mut library = MemLibrary::make(files, calls);
    judged(rt, alloc, threads, &mut library, word, row)
}

/// What comes of a row of missing files.
fn outcome_of_missing<R: Files + Print + AllocGlobal, T: Threads + Sync>(
    rt: &R,
    alloc: Global,
    threads: &T,
    row: &Row,
) -> Result<Outcome, AllocError> {
    let Some(count) = row.number(1) else {
        return Ok(Outcome::Unreadable);
    };
    let first = row.field(2);
    let text = loaded(
        rt,
        alloc,
        &mut Dangling { count, first },
        threads,
        Form::Whole,
    )?;
    Ok(Outcome::of(text.as_slice().ends_with(row.field(3))))
}

/// What comes of the row.
pub(crate) fn outcome_of<R: Files + Print + AllocGlobal, T: Threads + Sync>(
    rt: &R,
    alloc: Global,
    threads: &T,
    row: &Row,
) -> Result<Outcome, AllocError> {
    match word_of(row) {
        Some(Word::Missing) => outcome_of_missing(rt, alloc, threads, row),
        Some(word) => outcome_of_files(rt, alloc, threads, word, row),
        None => Ok(Outcome::Unreadable),
    }
}

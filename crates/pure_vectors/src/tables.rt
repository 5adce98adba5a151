//! Tables of which the rows are given, and theories written one behind another.
use crate::files::theories_of;
use crate::marks::is_line_feed;
use crate::texts::push_number;
use crate::wanted::{Wanted, Written, check};
use crate::world::World;
use pure_check::Status;
use pure_io::File;
use pure_rows::{Fault, Row};
use std::alloc::{AllocError, Global};
use std::rt::Files;
use std::sync::Wait;
use std::thread::Threads;

/// The first words of rows, in the order of the last line.
const STATUSES: [&[u8]; 7] = [
    b"declared",
    b"refused",
    b"proved",
    b"failed",
    b"tainted",
    b"cancelled",
    b"unsettled",
];

/// How many of the rows begin so.
fn count(rows: &[u8], status: &[u8]) -> usize {
    let mut found = 0_usize;
    for row in rows.split(is_line_feed) {
        if row.starts_with(status) {
            found = found.saturating_add(1);
        }
    }
    found
}

/// Adds how many of the rows begin so.
fn push_total(
    alloc: Global,
    text: &mut Vec<u8>,
    rows: &[u8],
    status: &[u8],
) -> Result<(), AllocError> {
    text.extend_from_slice(b", ")?;
    push_number(alloc, text, count(rows, status))?;
    text.extend_from_slice(b" ")?;
    text.extend_from_slice(status)
}

/// Adds the numbers of the last line.
fn push_totals(
    alloc: Global,
    text: &mut Vec<u8>,
    theories: usize,
    rows: &[u8],
) -> Result<(), AllocError> {
    push_number(alloc, text, theories)?;
    text.extend_from_slice(b" theories")?;
    for status in &STATUSES {
        push_total(alloc, text, rows, status)?;
    }
    text.extend_from_slice(b"\n")
}

/// The rows and the line of totals.
pub(crate) fn table_of(alloc: Global, theories: usize, rows: &[u8]) -> Result<Vec<u8>, AllocError> {
    let mut text = Vec::from_slice(alloc, rows)?;
    text.extend_from_slice(b"\ntotal: ")?;
    push_totals(alloc, &mut text, theories, rows)?;
    Ok(text)
}

/// The status of a run that prints the rows.
fn status_of(rows: &[u8]) -> Status {
    let good = count(rows, b"declared").saturating_add(count(rows, b"proved"));
    let all = rows.split(is_line_feed).count();
    if good == all {
        Status::Clean
    } else {
        Status::Rows
    }
}

/// Whether runs on these files give the table of these rows.
fn check_rows<R: Files + Print + AllocGlobal + Threads + Wait + Sync>(
    rt: &R,
    alloc: Global,
    files: &[File],
    lines: &[u8],
    rows: &[u8],
) -> Result<bool, AllocError> {
    let text = table_of(alloc, files.len(), rows)?;
    let wanted = Wanted {
        status: status_of(rows),
        written: Written::Whole(&text),
    };
    check(rt, alloc, World::of_files(files), lines, wanted)
}

/// Whether the row `rows WORDS THEORIES ROWS` holds.
pub(crate) fn rows<R: Files + Print + AllocGlobal + Threads + Wait + Sync>(
    rt: &R,
    alloc: Global,
    row: &Row,
) -> Result<bool, Fault> {
    let [_, lines, theories, rows] = row.fields_from(0) else {
        return Err(Fault::Unreadable);
    };
    let files = theories_of(alloc, theories)?;
    Ok(check_rows(rt, alloc, &files, lines, rows)?)
}

/// The lines, with a line feed behind the last one.
fn ended(alloc: Global, lines: &[u8]) -> Result<Vec<u8>, AllocError> {
    let mut text = Vec::from_slice(alloc, lines)?;
    text.push(b'\n')?;
    Ok(text)
}

/// Whether the row `prints WORDS THEORIES LINES` holds.
pub(crate) fn prints<R: Files + Print + AllocGlobal + Threads + Wait + Sync>(
    rt: &R,
    alloc: Global,
    row: &Row,
) -> Result<bool, Fault> {
    let [_, words, theories, lines] = row.fields_from(0) else {
        return Err(Fault::Unreadable);
    };
    let files = theories_of(alloc, theories)?;
    let text = ended(alloc, lines)?;
    let wanted = Wanted {
        status: Status::Clean,
        written: Written::Whole(&text),
    };
    Ok(check(rt, alloc, World::of_files(&files), words, wanted)?)
}

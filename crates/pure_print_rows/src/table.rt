//! The lines of the table, and the table.
use pure_print::{Row as Line, RowStatus, print_row, print_table};
use pure_rows::{Outcome, Row};
use pure_term::Text;
use std::alloc::{AllocError, Global};

/// The status of this word.
fn status_of(word: &[u8]) -> Option<RowStatus> {
    match word {
        b"declared" => Some(RowStatus::Declared),
        b"refused" => Some(RowStatus::Refused),
        b"proved" => Some(RowStatus::Proved),
        b"failed" => Some(RowStatus::Failed),
        b"tainted" => Some(RowStatus::Tainted),
        b"cancelled" => Some(RowStatus::Cancelled),
        b"unsettled" => Some(RowStatus::Unsettled),
        _ => None,
    }
}

/// The line of these parts, or none where the first is no status.
fn line_of(
    alloc: Global,
    status: &[u8],
    head: &[u8],
    tail: &[u8],
) -> Result<Option<Line>, AllocError> {
    let Some(status) = status_of(status) else {
        return Ok(None);
    };
    let head = Text::make(alloc, head)?;
    let tail = Text::make(alloc, tail)?;
    Ok(Some(Line { status, head, tail }))
}

/// The lines of parts one behind another, or none where these are none.
fn lines_of(alloc: Global, parts: &[Vec<u8>]) -> Result<Option<Vec<Line>>, AllocError> {
    let mut lines = Vec::new(alloc);
    for each in parts.chunks(3) {
        let [status, head, tail] = each else {
            return Ok(None);
        };
        match line_of(alloc, status, head, tail)? {
            Some(line) => lines.push(line)?,
            None => return Ok(None),
        }
    }
    Ok(Some(lines))
}

/// Whether the line of the row's parts is printed so, or none where it is none.
fn prints_line(alloc: Global, row: &Row) -> Result<Option<bool>, AllocError> {
    match line_of(alloc, row.field(1), row.field(2), row.field(3))? {
        Some(line) => Ok(Some(print_row(alloc, &line)?.bytes() == row.field(4))),
        None => Ok(None),
    }
}

/// Whether the table of so many theories and of the row's lines is printed so, or none where one of them is none.
fn prints_table(alloc: Global, theories: u32, row: &Row) -> Result<Option<bool>, AllocError> {
    match lines_of(alloc, row.fields_from(3))? {
        Some(lines) => {
            let table = print_table(alloc, theories, &lines)?;
            Ok(Some(table.bytes() == row.field(2)))
        }
        None => Ok(None),
    }
}

/// The outcome of a test that may find nothing to test.
fn outcome_of(answer: Result<Option<bool>, AllocError>) -> Outcome {
    match answer {
        Ok(Some(holds)) => Outcome::of(holds),
        Ok(None) => Outcome::Unreadable,
        Err(_) => Outcome::Memory,
    }
}

/// What comes of a row of a line.
pub(crate) fn line_outcome(alloc: Global, row: &Row) -> Outcome {
    outcome_of(prints_line(alloc, row))
}

/// What comes of a row of a table.
pub(crate) fn table_outcome(alloc: Global, row: &Row) -> Outcome {
    match row.number(1) {
        Some(theories) if row.len() >= 3 => outcome_of(prints_table(alloc, theories, row)),
        _ => Outcome::Unreadable,
    }
}

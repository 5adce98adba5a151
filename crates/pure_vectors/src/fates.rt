//! A session whose lemmas may be cancelled, and its table for each choice of those that are.
//!
//! A session has a line for each row of its table: the name of a lemma, the row that it has where it rests on nothing that failed or was cancelled, and the lemmas that its proof cites, with `|` between them. A row that no policy changes has neither a name nor lemmas.
use crate::marks::{is_blank, is_line_feed};
use crate::tables::table_of;
use crate::texts::part;
use std::alloc::{AllocError, Global};

/// A set of places of lines, each below 64.
#[derive(Clone, Copy, Debug, PartialEq, Eq)]
pub(crate) struct Places {
    bits: u64,
}

/// The bit of the place.
fn bit(place: usize) -> u64 {
    let shift = u32::try_from(place).unwrap_or(u32::MAX);
    1_u64.checked_shl(shift).unwrap_or(0)
}

impl Places {
    pub(crate) fn none() -> Places {
        Places { bits: 0 }
    }

    pub(crate) fn is_none(self) -> bool {
        self.bits == 0
    }

    pub(crate) fn has(self, place: usize) -> bool {
        self.bits & bit(place) != 0
    }

    pub(crate) fn with(self, place: usize) -> Places {
        Places {
            bits: self.bits | bit(place),
        }
    }

    fn joined(self, other: Places) -> Places {
        Places {
            bits: self.bits | other.bits,
        }
    }
}

/// The name of the lemma that has the line, or nothing.
pub(crate) fn name_of(line: &[u8]) -> &[u8] {
    part(line, 0)
}

fn row_of(line: &[u8]) -> &[u8] {
    part(line, 1)
}

fn cited_in(line: &[u8]) -> &[u8] {
    part(line, 2)
}

/// Whether the line's own proof fails.
pub(crate) fn is_fault(line: &[u8]) -> bool {
    row_of(line).starts_with(b"failed ")
}

/// The place of the line of the lemma with the name.
pub(crate) fn place_of(lines: &[u8], name: &[u8]) -> Option<usize> {
    lines
        .split(is_line_feed)
        .position(|line| name_of(line) == name)
}

/// The line with the place.
fn line_at(lines: &[u8], wanted: usize) -> &[u8] {
    for (place, line) in lines.split(is_line_feed).enumerate() {
        if place == wanted {
            return line;
        }
    }
    b""
}

/// The lemmas that the rows print as cancelled.
pub(crate) fn cancelled_in(lines: &[u8], rows: &[u8]) -> Places {
    let mut cancelled = Places::none();
    for row in rows.split(is_line_feed) {
        let name = row.strip_prefix(b"cancelled ");
        if let Some(place) = name.and_then(|name| place_of(lines, name)) {
            cancelled = cancelled.with(place);
        }
    }
    cancelled
}

/// What is reached by citing the lemma with the place: itself where it failed or was cancelled, else what it reaches.
fn reached_by(lines: &[u8], cancelled: Places, reached: &[Places], cited: usize) -> Places {
    if cancelled.has(cited) || is_fault(line_at(lines, cited)) {
        return Places::none().with(cited);
    }
    match reached.get(cited) {
        Some(places) => *places,
        None => Places::none(),
    }
}

/// The failed and cancelled lemmas that the line's proof reaches, by what those of the lines before it reach.
fn reach(lines: &[u8], cancelled: Places, reached: &[Places], line: &[u8]) -> Places {
    let mut places = Places::none();
    for name in cited_in(line).split(is_blank) {
        if let Some(cited) = place_of(lines, name) {
            places = places.joined(reached_by(lines, cancelled, reached, cited));
        }
    }
    places
}

/// Adds the names of the lemmas that failed among the places, or nothing where none did.
fn push_blame(
    text: &mut Vec<u8>,
    lines: &[u8],
    cancelled: Places,
    reached: Places,
) -> Result<(), AllocError> {
    let mut between: &[u8] = b": by ";
    for (place, line) in lines.split(is_line_feed).enumerate() {
        if reached.has(place) && !cancelled.has(place) {
            text.extend_from_slice(between)?;
            text.extend_from_slice(name_of(line))?;
            between = b", ";
        }
    }
    Ok(())
}

/// Whether some lemma among the places failed.
fn has_fault(cancelled: Places, reached: Places) -> bool {
    reached.bits & !cancelled.bits != 0
}

/// Adds the row of a lemma whose proof ends well, by the failed and cancelled ones that it reaches.
fn push_standing(
    text: &mut Vec<u8>,
    lines: &[u8],
    cancelled: Places,
    reached: Places,
    line: &[u8],
) -> Result<(), AllocError> {
    if reached.is_none() {
        return text.extend_from_slice(row_of(line));
    }
    let front: &[u8] = if has_fault(cancelled, reached) {
        b"tainted "
    } else {
        b"unsettled "
    };
    text.extend_from_slice(front)?;
    text.extend_from_slice(name_of(line))?;
    push_blame(text, lines, cancelled, reached)
}

/// Adds the row of the line.
fn push_row(
    text: &mut Vec<u8>,
    lines: &[u8],
    cancelled: Places,
    reached: Places,
    (place, line): (usize, &[u8]),
) -> Result<(), AllocError> {
    if cancelled.has(place) {
        text.extend_from_slice(b"cancelled ")?;
        return text.extend_from_slice(name_of(line));
    }
    if is_fault(line) {
        return text.extend_from_slice(row_of(line));
    }
    push_standing(text, lines, cancelled, reached, line)
}

/// Adds the rows.
fn push_rows(
    text: &mut Vec<u8>,
    reached: &mut Vec<Places>,
    lines: &[u8],
    cancelled: Places,
) -> Result<(), AllocError> {
    for (place, line) in lines.split(is_line_feed).enumerate() {
        if place > 0 {
            text.push(b'\n')?;
        }
        let here = reach(lines, cancelled, reached.as_slice(), line);
        push_row(text, lines, cancelled, here, (place, line))?;
        reached.push(here)?;
    }
    Ok(())
}

/// The rows where these lemmas are cancelled.
fn rows_with(alloc: Global, lines: &[u8], cancelled: Places) -> Result<Vec<u8>, AllocError> {
    let mut reached = Vec::new(alloc);
    let mut text = Vec::new(alloc);
    push_rows(&mut text, &mut reached, lines, cancelled)?;
    Ok(text)
}

/// The table of so many theories where these lemmas are cancelled.
pub(crate) fn table_with(
    alloc: Global,
    lines: &[u8],
    theories: usize,
    cancelled: Places,
) -> Result<Vec<u8>, AllocError> {
    let rows = rows_with(alloc, lines, cancelled)?;
    table_of(alloc, theories, &rows)
}

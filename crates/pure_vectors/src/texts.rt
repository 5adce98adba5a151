//! Texts written short, so that a row can give a text that is too large to write down.
use crate::marks::{is_at, is_bar};
use pure_rows::{Fault, number_of};
use std::alloc::{AllocError, Global};

/// How often a piece stands there, and whether with its number each time.
#[derive(Clone, Copy)]
struct Times {
    count: u32,
    is_counted: bool,
}

/// What stands at a place between two `@`.
#[derive(Clone, Copy)]
enum Place {
    Plain,
    Count,
    Piece(Times),
}

/// The part with the place of those that stand between `|`, or nothing.
pub(crate) fn part(parts: &[u8], wanted: usize) -> &[u8] {
    for (place, part) in parts.split(is_bar).enumerate() {
        if place == wanted {
            return part;
        }
    }
    b""
}

/// Adds a number.
pub(crate) fn push_number(
    alloc: Global,
    text: &mut Vec<u8>,
    number: usize,
) -> Result<(), AllocError> {
    let digits = number.to_string(alloc)?;
    text.extend_from_slice(digits.as_bytes())
}

/// Adds a number in so many digits at least.
fn push_padded(
    alloc: Global,
    text: &mut Vec<u8>,
    number: usize,
    width: usize,
) -> Result<(), AllocError> {
    let digits = number.to_string(alloc)?;
    for _ in digits.len()..width {
        text.push(b'0')?;
    }
    text.extend_from_slice(digits.as_bytes())
}

/// Adds what so many marks stand for.
fn push_marks(
    alloc: Global,
    text: &mut Vec<u8>,
    mark: u8,
    width: usize,
    number: usize,
) -> Result<(), AllocError> {
    match mark {
        b'#' => push_padded(alloc, text, number, width),
        b'~' => push_padded(alloc, text, number.saturating_sub(1), width),
        _ => Ok(()),
    }
}

/// Adds the piece that has the turn with the number: pieces stand between `|`, `##` in one is the number in two digits at least, and `~~` the number before.
pub(crate) fn push_turn(
    alloc: Global,
    text: &mut Vec<u8>,
    pieces: &[u8],
    number: usize,
) -> Result<(), AllocError> {
    let count = pieces.split(is_bar).count().max(1);
    let mut mark = b' ';
    let mut width = 0_usize;
    for byte in part(pieces, number % count) {
        if *byte != mark {
            push_marks(alloc, text, mark, width, number)?;
            mark = *byte;
            width = 0;
        }
        width = width.saturating_add(1);
        if mark != b'#' && mark != b'~' {
            text.push(mark)?;
        }
    }
    push_marks(alloc, text, mark, width, number)
}

/// How often the piece behind this count stands there.
fn read_times(written: &[u8]) -> Option<Times> {
    let plain = written.strip_suffix(b"#");
    Some(Times {
        count: number_of(plain.unwrap_or(written))?,
        is_counted: plain.is_some(),
    })
}

/// Adds a piece so many times.
fn push_times(
    alloc: Global,
    text: &mut Vec<u8>,
    piece: &[u8],
    times: Times,
) -> Result<(), AllocError> {
    for number in 0..times.count {
        if times.is_counted {
            push_turn(alloc, text, piece, number as usize)?;
        } else {
            text.extend_from_slice(piece)?;
        }
    }
    Ok(())
}

/// Adds what the part at the place stands for; what the next one is.
fn push_part(alloc: Global, text: &mut Vec<u8>, place: Place, part: &[u8]) -> Result<Place, Fault> {
    match place {
        Place::Plain => {
            text.extend_from_slice(part)?;
            Ok(Place::Count)
        }
        Place::Count => {
            let times = read_times(part).ok_or(Fault::Unreadable)?;
            Ok(Place::Piece(times))
        }
        Place::Piece(times) => {
            push_times(alloc, text, part, times)?;
            Ok(Place::Plain)
        }
    }
}

/// The text that is written short so: `@3@ab@` stands for `ababab`, and `@3#@a#|b#@` for `a0b1a2`.
pub(crate) fn text_of(alloc: Global, short: &[u8]) -> Result<Vec<u8>, Fault> {
    let mut text = Vec::new(alloc);
    let mut place = Place::Plain;
    for part in short.split(is_at) {
        place = push_part(alloc, &mut text, place, part)?;
    }
    match place {
        Place::Count => Ok(text),
        _ => Err(Fault::Unreadable),
    }
}

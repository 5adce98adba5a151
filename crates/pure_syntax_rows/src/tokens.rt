//! The tokens of sources, and the lines and columns of their places.
use crate::say::{is_place, say, say_number};
use pure_lex::{LexFault, Token, line_col, tokens};
use pure_rows::{Outcome, Row, Subject, text_of};
use std::alloc::{AllocError, Global};
use std::rt::Files;

/// The reading of tokens.
pub(crate) struct Tokens;

impl Subject for Tokens {
    fn outcome<R: Files + Print + AllocGlobal>(
        &self,
        _rt: &R,
        alloc: Global,
        row: &Row,
    ) -> Outcome {
        match (row.field(0), row.len()) {
            (b"tokens", 3) => whole_outcome(alloc, row.field(1), row.field(2)),
            (b"long", 3) => long_outcome(alloc, row.field(1), row.field(2)),
            (b"range", 5) => range_outcome(alloc, row.field(1), row),
            (b"long-range", 5) => long_range_outcome(alloc, row),
            (b"place", 5) => place_outcome(row),
            _ => Outcome::Unreadable,
        }
    }
}

/// Writes a token with its range.
fn say_token(alloc: Global, shown: &mut Vec<u8>, token: Token) -> Result<(), AllocError> {
    let kind = token.kind;
    say(shown, &format!(in alloc; "{kind:?} ")?)?;
    say_number(alloc, shown, token.from)?;
    say(shown, "-")?;
    say_number(alloc, shown, token.to)
}

/// Whether the tokens with their ranges are written so.
fn are_tokens(alloc: Global, found: &[Token], wanted: &[u8]) -> Result<bool, AllocError> {
    let mut shown = Vec::new(alloc);
    for token in found {
        if !shown.is_empty() {
            say(&mut shown, ", ")?;
        }
        say_token(alloc, &mut shown, *token)?;
    }
    Ok(shown.as_slice() == wanted)
}

/// Whether the range of the source has these tokens, or its first fault this place.
fn outcome_within(alloc: Global, source: &[u8], from: u32, to: u32, wanted: &[u8]) -> Outcome {
    if from > to || to as usize > source.len() {
        return Outcome::Unreadable;
    }
    match tokens(alloc, source, from, to) {
        Ok(found) => Outcome::of_answer(are_tokens(alloc, &found, wanted)),
        Err(LexFault::At { at }) => Outcome::of_answer(is_place(alloc, at, wanted)),
        Err(LexFault::Memory) => Outcome::Memory,
    }
}

/// What comes of a row of a source.
fn whole_outcome(alloc: Global, source: &[u8], wanted: &[u8]) -> Outcome {
    match u32::try_from(source.len()) {
        Ok(len) => outcome_within(alloc, source, 0, len, wanted),
        Err(_) => Outcome::Unreadable,
    }
}

/// What comes of a row of a source that is written short.
fn long_outcome(alloc: Global, short: &[u8], wanted: &[u8]) -> Outcome {
    match text_of(alloc, short) {
        Ok(source) => whole_outcome(alloc, &source, wanted),
        Err(_) => Outcome::Memory,
    }
}

/// What comes of a row of a range of the source.
fn range_outcome(alloc: Global, source: &[u8], row: &Row) -> Outcome {
    match (row.number(2), row.number(3)) {
        (Some(from), Some(to)) => outcome_within(alloc, source, from, to, row.field(4)),
        _ => Outcome::Unreadable,
    }
}

/// What comes of a row of a range of a source that is written short.
fn long_range_outcome(alloc: Global, row: &Row) -> Outcome {
    match text_of(alloc, row.field(1)) {
        Ok(source) => range_outcome(alloc, &source, row),
        Err(_) => Outcome::Memory,
    }
}

/// Whether the place of the source has this line and column.
fn outcome_at(source: &[u8], at: u32, line: u32, column: u32) -> Outcome {
    if at as usize > source.len() || source.len() >= 4_294_967_295 {
        return Outcome::Unreadable;
    }
    Outcome::of(line_col(source, at) == (line, column))
}

/// What comes of a row of a place.
fn place_outcome(row: &Row) -> Outcome {
    match (row.number(2), row.number(3), row.number(4)) {
        (Some(at), Some(line), Some(column)) => outcome_at(row.field(1), at, line, column),
        _ => Outcome::Unreadable,
    }
}

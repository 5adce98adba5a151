//! What fields of rows stand for.
use pure_notation::NotationFault;
use pure_rows::Outcome;

/// The text of the field, which is a point where there is none.
pub(crate) fn text(field: &[u8]) -> &[u8] {
    match field {
        b"." => b"",
        _ => field,
    }
}

/// The outcome of a row, which can't be read where a text of it isn't in the notation.
pub(crate) fn outcome_of(answer: Result<bool, NotationFault>) -> Outcome {
    match answer {
        Ok(holds) => Outcome::of(holds),
        Err(NotationFault::Memory) => Outcome::Memory,
        Err(_) => Outcome::Unreadable,
    }
}

//! Answers of libraries and sinks as they are written in rows.
use pure_io::{Failed, ReadFault};
use pure_rows::number_of;
use pure_text::Text;

/// What a reading is to answer: these bytes, or this fault.
pub(crate) type Reading<'r> = Result<&'r [u8], ReadFault>;

/// The fault that is written so.
pub(crate) fn fault_of(word: &[u8]) -> Option<ReadFault> {
    match word {
        b"missing" => Some(ReadFault::Missing),
        b"failed" => Some(ReadFault::Failed),
        _ => None,
    }
}

/// The answer of a reading that is written so: the bytes behind `=`, or a fault.
pub(crate) fn reading_of(written: &[u8]) -> Option<Reading<'_>> {
    match written {
        [b'=', bytes @ ..] => Some(Ok(bytes)),
        word => Some(Err(fault_of(word)?)),
    }
}

/// Whether a reading gave these bytes, or was refused so.
pub(crate) fn is_reading(got: &Result<Text, ReadFault>, wanted: Reading<'_>) -> bool {
    match (got, wanted) {
        (Ok(text), Ok(bytes)) => text.bytes() == bytes,
        (Err(fault), Err(other)) => *fault == other,
        _ => false,
    }
}

/// The answer of a writing that is written so: how many bytes were taken, or `failed`.
pub(crate) fn writing_of(written: &[u8]) -> Option<Result<usize, Failed>> {
    match written {
        b"failed" => Some(Err(Failed)),
        digits => Some(Ok(number_of(digits)? as usize)),
    }
}

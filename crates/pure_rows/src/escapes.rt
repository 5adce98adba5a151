//! Escapes in a field.
ghost use Rattle.std.specs.Prelude.{◌≡◌, ◌<◌, IfOk, IfSome, option_map};
ghost use Rattle.pure_rows.specs.Fields.{named_byte, digit_count, digits_byte};
ghost use Rattle.pure_rows.specs.Escapes.{place_of, place_behind, found_with, field_of};

use std::alloc::{AllocError, Global};

/// What a hexadecimal digit counts.
fn digit(byte: u8) -> Option<u8>
    ensures value { result ≡ digit_count byte }
    ensures small { IfSome result (λ count. count < 16) }
{
    match byte {
        b'0'..=b'9' => Some(byte - b'0'),
        b'a'..=b'f' => Some(byte - b'a' + 10),
        _ => None,
    }
}

/// The byte of two hexadecimal digits.
fn hexadecimal(high: u8, low: u8) -> Option<u8>
    ensures { result ≡ digits_byte (digit_count high) (digit_count low) }
{
    let high = digit(high)?;
    let low = digit(low)?;
    Some(high * 16 + low)
}

/// The byte that stands for the letter behind a backslash.
fn named(letter: u8) -> Option<u8>
    ensures { result ≡ named_byte letter }
{
    match letter {
        b'n' => Some(b'\n'),
        b't' => Some(b'\t'),
        b'r' => Some(b'\r'),
        b'\\' => Some(b'\\'),
        _ => None,
    }
}

/// What was read of an escape: nothing yet, a backslash, `\x`, or that and a digit.
#[derive(Clone, Copy, PartialEq, Eq)]
pub(crate) enum Place {
    Plain,
    Escape,
    Hexadecimal,
    Digit(u8),
    Fault,
}

/// The end of an escape, if it is one.
fn whole(byte: Option<u8>) -> Place
    ensures { result ≡ place_of byte }
{
    match byte {
        Some(_) => Place::Plain,
        None => Place::Fault,
    }
}

/// Where it goes on behind one more byte.
fn turn(place: Place, byte: u8) -> Place
    ensures { result ≡ place_behind place byte }
{
    match place {
        Place::Plain if byte == b'\\' => Place::Escape,
        Place::Plain => Place::Plain,
        Place::Escape if byte == b'x' => Place::Hexadecimal,
        Place::Escape => whole(named(byte)),
        Place::Hexadecimal => Place::Digit(byte),
        Place::Digit(high) => whole(hexadecimal(high, byte)),
        Place::Fault => Place::Fault,
    }
}

/// The byte that is complete with one more.
fn found(place: Place, byte: u8) -> Option<u8>
    ensures { result ≡ found_with place byte }
{
    match place {
        Place::Plain if byte != b'\\' => Some(byte),
        Place::Escape if byte != b'x' => named(byte),
        Place::Digit(high) => hexadecimal(high, byte),
        _ => None,
    }
}

/// The bytes that the field is written for, or none where an escape is none.
pub(crate) fn unescaped(alloc: Global, written: &[u8]) -> Result<Option<Vec<u8>>, AllocError>
    ensures { IfOk result (λ found. option_map (λ bytes. bytes.items) found ≡ field_of written.now) }
{
    let mut bytes = Vec::with_capacity(alloc, written.len())?;
    let mut place = Place::Plain;
    for byte in written {
        if let Some(found) = found(place, *byte) {
            bytes.push(found)?;
        }
        place = turn(place, *byte);
    }
    match place {
        Place::Plain => Ok(Some(bytes)),
        _ => Ok(None),
    }
}

//! What a row's reason says of its place.
ghost use Rattle.std.specs.Prelude.{◌≡◌, ◌<◌, ◌+◌, ◌∷◌, ℕ, List, IfOk, map, drop, get_or, length};
ghost use Rattle.pure_grammar.specs.Tokens.Bytes.{is_digit};
ghost use Rattle.pure_places.specs.Seen.{seen_part, seen_import, seen_places};
ghost use Rattle.pure_row_places.specs.Reasons as spec;
ghost use Rattle.pure_row_places.specs.Texts.{seen_text};

use pure_places::{Import, Part, Places};
use pure_print::{Row, RowStatus};
use std::alloc::AllocError;

/// What stands behind ` at `, where the text begins so.
#[tactic(auto, unfolding(crate::specs::Reasons::at_word))]
fn behind_at(text: &[u8]) -> Option<&[u8]>
    ensures { seen_text result ≡ spec.behind spec.at_word text.now }
{
    text.strip_prefix(b" at ")
}

/// The text from this place on.
fn rest_of(text: &[u8], place: usize) -> &[u8]
    requires { place < length text.now }
    ensures { result.now ≡ drop place text.now }
{
    &text[place..]
}

/// What stands behind ` at ` at this place, if it stands there.
fn named_at(text: &[u8], place: usize) -> Option<&[u8]>
    requires { place < length text.now }
    ensures { spec.first_some (seen_text result) (spec.named_place (drop (place + 1) text.now)) ≡ spec.named_place (drop place text.now) }
{
    let rest = rest_of(text, place);
    behind_at(rest)
}

/// What stands behind the first ` at `.
fn named_place(text: &[u8]) -> Option<&[u8]>
    ensures { seen_text result ≡ spec.named_place text.now }
{
    for place in 0..text.len() {
        if let Some(rest) = named_at(text, place) {
            return Some(rest);
        }
    }
    None
}

/// The place that the row's reason itself names.
pub(crate) fn reason_place(row: &Row) -> Option<&[u8]>
    ensures { seen_text result ≡ spec.reason_place row.now }
{
    match row.status {
        RowStatus::Refused => named_place(row.tail.bytes()),
        _ => None,
    }
}

/// Whether the row refuses a lemma itself, and no have of it.
#[tactic(auto, unfolding(crate::specs::Reasons::lemma_word))]
pub(crate) fn refuses_lemma(row: &Row) -> bool
    ensures { result ≡ spec.refuses_lemma row.now }
{
    match row.status {
        RowStatus::Refused => row.head.bytes().starts_with(b"lemma "),
        _ => false,
    }
}

/// Whether the byte is a digit.
#[tactic(auto, unfolding(pure_grammar::specs::Tokens::Bytes::is_digit))]
fn is_digit(byte: u8) -> bool
    ensures { result ≡ is_digit byte }
{
    byte.is_ascii_digit()
}

/// The value with one more digit, or none where the byte is none. More than nine of them never come.
fn with_digit(value: u32, byte: u8) -> Result<Option<u32>, AllocError>
    ensures { IfOk result (λ next. (more : List ℕ) → spec.front_value value (byte ∷ more) ≡ spec.value_on next value more) }
{
    if !is_digit(byte) {
        return Ok(None);
    }
    let Some(tens) = value.checked_mul(10) else {
        return Err(AllocError);
    };
    let Some(next) = tens.checked_add(u32::from(byte.saturating_sub(b'0'))) else {
        return Err(AllocError);
    };
    Ok(Some(next))
}

/// The value of the digits at the front.
fn front_value(text: &[u8]) -> Result<u32, AllocError>
    ensures { IfOk result (λ value. value ≡ spec.front_value 0 text.now) }
{
    let mut value: u32 = 0;
    for byte in text {
        match with_digit(value, *byte)? {
            Some(next) => value = next,
            None => return Ok(value),
        }
    }
    Ok(value)
}

/// The step that failed, of a row that says so; else 0.
#[tactic(auto, unfolding(crate::specs::Reasons::step_word))]
fn failed_step(row: &Row) -> Result<u32, AllocError>
    ensures { IfOk result (λ step. step ≡ spec.failed_step row.now) }
{
    match row.status {
        RowStatus::Failed => match row.tail.bytes().strip_prefix(b": step ") {
            Some(rest) => front_value(rest),
            None => Ok(0),
        },
        _ => Ok(0),
    }
}

/// The element at this place, or another where there is none.
fn get_or(steps: &[u32], place: usize, other: u32) -> u32
    ensures { result ≡ get_or steps.now place other }
{
    if place < steps.len() {
        return steps[place];
    }
    other
}

/// The place of the command's step with this number, counted from 1, or, of step 0, that of its name.
pub fn place_of_step(part: &Part, step: u32) -> u32
    ensures { result ≡ spec.step_place (seen_part part.now) step }
{
    if step == 0 {
        return part.name;
    }
    get_or(part.steps.as_slice(), (step - 1) as usize, part.name)
}

/// The place of the command's step that failed, if one did, or that of its name.
pub(crate) fn step_place(part: &Part, row: &Row) -> Result<u32, AllocError>
    ensures { IfOk result (λ at. at ≡ spec.step_place (seen_part part.now) (spec.failed_step row.now)) }
{
    let step = failed_step(row)?;
    Ok(place_of_step(part, step))
}

/// The import that the reason of a refused theory or file names.
#[tactic(auto, unfolding(crate::specs::Reasons::no_file_word, crate::specs::Reasons::parent_word))]
fn import_named(tail: &[u8]) -> Option<&[u8]>
    ensures { seen_text result ≡ spec.import_named tail.now }
{
    if let Some(theory) = tail.strip_prefix(b": no file ") {
        return Some(theory);
    }
    tail.strip_prefix(b": parent refused ")
}

/// The place of the first import of this theory, or the file's beginning where there is none.
fn import_place(imports: &[Import], theory: &[u8]) -> u32
    ensures { result ≡ spec.import_place (map seen_import imports.now) theory.now }
{
    for import in imports {
        if import.theory.bytes() == theory {
            return import.at;
        }
    }
    0
}

/// Whether the reason says something of the whole file.
#[tactic(auto, unfolding(crate::specs::Reasons::too_large, crate::specs::Reasons::too_many_files))]
fn is_whole(tail: &[u8]) -> bool
    ensures { result ≡ spec.is_whole tail.now }
{
    tail == b": too large".as_slice() || tail == b": too many files".as_slice()
}

/// The place in a header that a reason speaks of.
pub(crate) fn header_place(places: &Places, tail: &[u8]) -> u32
    ensures { result ≡ spec.header_place (seen_places places.now) tail.now }
{
    match import_named(tail) {
        Some(theory) => import_place(places.imports.as_slice(), theory),
        None => {
            if is_whole(tail) {
                return 0;
            }
            places.name
        }
    }
}

//! A row and its fields.
ghost use Rattle.std.specs.Prelude.{◌≡◌, [], length, get_or, drop, map, IfOk, MatchOption, option_map};
ghost use Rattle.pure_rows.specs.Fields.{IsRow, IsNoRow};
ghost use Rattle.pure_rows.specs.Escapes.{fields_of};
ghost use Rattle.pure_rows.specs.Names.{meant_by};
ghost use Rattle.pure_rows.specs.Numbers as spec;

use crate::escapes::unescaped;
use crate::parts::parts;
use std::alloc::{AllocError, Global};
use std::marker::Model;

/// The fields of a line. Contracts see their list.
#[derive(Drop)]
pub struct Row {
    fields: Vec<Vec<u8>>,
}

impl Model for Row {
    ghost use Rattle.std.specs.Prelude.{List, ℕ, map};

    ghost Value = { List (List ℕ) };

    ghost view = { λ row. map (λ field. field.items) row.fields.items };
}

impl Row {
    /// How many fields there are.
    pub fn len(&self) -> usize
        ensures { result ≡ length self.now }
    {
        self.fields.len()
    }

    /// The field at the place, or nothing where there is none.
    pub fn field(&self, place: usize) -> &[u8]
        ensures { result.now ≡ get_or self.now place [] }
    {
        match self.fields.get(place) {
            Some(field) => field.as_slice(),
            None => b"",
        }
    }

    /// The fields from the place on.
    pub fn fields_from(&self, place: usize) -> &[Vec<u8>]
        ensures { map (λ field. field.items) result.now ≡ drop place self.now }
    {
        let fields = self.fields.as_slice();
        &fields[place.min(fields.len())..]
    }

    /// The decimal number at the place, or none where the field is none or has more than nine digits.
    pub fn number(&self, place: usize) -> Option<u32>
        ensures { result ≡ spec.number_of (get_or self.now place []) }
    {
        number_of(self.field(place))
    }
}

/// The decimal number of up to nine digits that is written so.
pub fn number_of(digits: &[u8]) -> Option<u32>
    ensures { result ≡ spec.number_of digits.now }
{
    if digits.is_empty() || digits.len() > 9 {
        return None;
    }
    let mut number = 0_u32;
    for digit in digits {
        if !digit.is_ascii_digit() {
            return None;
        }
        number = number * 10 + u32::from(digit - b'0');
    }
    Some(number)
}

/// The fields that are written so, or none where an escape in one of them is none.
fn fields(alloc: Global, written: &[&[u8]]) -> Result<Option<Vec<Vec<u8>>>, AllocError>
    ensures { IfOk result (λ found.
        option_map (λ fields. map (λ field. field.items) fields.items) found ≡ fields_of (map (λ part. part.now) written.now)) }
{
    let mut fields = Vec::new(alloc);
    for each in written {
        match unescaped(alloc, each)? {
            Some(field) => fields.push(field)?,
            None => return Ok(None),
        }
    }
    Ok(Some(fields))
}

/// The row that the line is, or none where an escape in it is none.
pub fn read_row(alloc: Global, line: &[u8]) -> Result<Option<Row>, AllocError>
    ensures { IfOk result (λ found. MatchOption found (IsNoRow line.now) (IsRow line.now)) }
{
    let written = parts(alloc, b'\t', line)?;
    match fields(alloc, &written)? {
        Some(fields) => Ok(Some(Row { fields })),
        None => Ok(None),
    }
}

/// What the word stands for in the table of names, or none where it is no name there.
pub fn named<T: Copy>(names: &[(&[u8], T)], word: &[u8]) -> Option<T>
    ensures { result ≡ meant_by (map (λ entry. (entry.0.now, entry.1)) names.now) word.now }
{
    for (name, meant) in names {
        if *name == word {
            return Some(*meant);
        }
    }
    None
}

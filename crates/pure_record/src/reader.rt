//! Lexemes that are read one after another. That they are a record is known before; where they are none, memory is said to fail.
ghost use Rattle.std.specs.Prelude.{◌≡◌, ◌∷◌, ◌+◌, IfOk, IfSome, OnOk, drop};
ghost use Rattle.pure_record.specs.Left.{left};

use crate::lexeme::{Lexeme, Mark, Word};
use crate::symbol::is_mark;
use pure_term::Name;
use std::alloc::AllocError;

/// Lexemes, and the place of the one that is read next.
#[derive(Drop)]
pub(crate) struct Reader {
    pub(crate) lexemes: Vec<Lexeme>,
    pub(crate) at: usize,
}

/// An identifier by its number and word.
#[derive(Clone, Copy)]
pub(crate) struct Named {
    pub(crate) name: Name,
    pub(crate) word: Word,
}

/// How deep parts of a run of 1,000 tokens may stand in one another, at most.
pub(crate) const ROOM: u32 = 4000;

/// The room one step further in.
pub(crate) fn less(room: u32) -> Result<u32, AllocError>
    ensures { IfOk result (λ n. n + 1 ≡ room) }
{
    match room.checked_sub(1) {
        Some(n) => Ok(n),
        None => Err(AllocError),
    }
}

/// The lexeme at the place, if there is one.
fn lexeme_at(lexemes: &[Lexeme], at: usize) -> Option<Lexeme>
    ensures { IfSome result (λ found. drop at lexemes.now ≡ found ∷ drop (at + 1) lexemes.now) }
{
    if at < lexemes.len() {
        return Some(lexemes[at]);
    }
    None
}

/// Takes the next lexeme.
pub(crate) fn take(reader: &mut Reader) -> Result<Lexeme, AllocError>
    ensures { IfOk result (λ found. left reader.old ≡ found ∷ left reader.new) }
{
    let at = reader.at;
    let Some(found) = lexeme_at(reader.lexemes.as_slice(), at) else {
        return Err(AllocError);
    };
    let Some(next) = at.checked_add(1) else {
        return Err(AllocError);
    };
    reader.at = next;
    Ok(found)
}

/// Whether the mark comes next.
pub(crate) fn is_at(reader: &Reader, mark: Mark) -> bool {
    let at = reader.at;
    at < reader.lexemes.len() && is_mark(mark, reader.lexemes[at])
}

/// Takes the mark.
pub(crate) fn expect(reader: &mut Reader, mark: Mark) -> Result<(), AllocError>
    ensures { OnOk result (left reader.old ≡ Lexeme.Marked mark ∷ left reader.new) }
{
    let found = take(reader)?;
    if !is_mark(mark, found) {
        return Err(AllocError);
    }
    Ok(())
}

/// Takes an identifier.
pub(crate) fn identifier(reader: &mut Reader) -> Result<Named, AllocError>
    ensures { IfOk result (λ found. left reader.old ≡ Lexeme.Identifier found.name found.word ∷ left reader.new) }
{
    let found = take(reader)?;
    match found {
        Lexeme::Identifier { name, word } => Ok(Named {
            name: Name(name),
            word,
        }),
        _ => Err(AllocError),
    }
}

/// Takes a number.
pub(crate) fn number(reader: &mut Reader) -> Result<u32, AllocError>
    ensures { IfOk result (λ n. left reader.old ≡ Lexeme.Numeral n ∷ left reader.new) }
{
    let found = take(reader)?;
    match found {
        Lexeme::Numeral { value } => Ok(value),
        _ => Err(AllocError),
    }
}

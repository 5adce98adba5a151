//! The printed forms of types and terms, and what is read of them.
ghost use Rattle.std.specs.Prelude.{◌<◌, length, IfSome};
ghost use Rattle.pure_grammar.specs.Tokens.Spelling.{AreSlices};

use crate::own::{is_own, is_own_typ};
use pure_grammar::Token;
use pure_lex::tokens;
use pure_notation::{NotationFault, read_term, read_typ, session};
use pure_print::{print_term, print_typ};
use pure_read::{read_raw, read_raw_typ};
use pure_rows::Outcome;
use pure_term::{Names, Term, Typ};
use std::alloc::{AllocError, Global};

/// Whether a printed form is read as the tree that was printed, or is not: a fresh name has no form that is read, and an
/// index of ten digits neither.
#[derive(Clone, Copy, PartialEq, Eq)]
pub(crate) enum Way {
    Both,
    One,
}

impl Way {
    /// The way of a form that is read back, or isn't.
    fn of(is_read_back: bool) -> Way {
        if is_read_back { Way::Both } else { Way::One }
    }
}

/// The tokens of the printed form, or none where it has none.
fn tokens_of(alloc: Global, printed: &[u8]) -> Option<Vec<Token>>
    ensures small { IfSome result (λ _. length printed.now < 4294967296) }
    ensures slices { IfSome result (λ found. AreSlices printed.now 0 (length printed.now) found.items) }
{
    if printed.len() >= 4_294_967_295 {
        return None;
    }
    tokens(alloc, printed, 0, printed.len() as u32).ok()
}

/// Whether the printed form is read as the term's own tree.
fn is_read_back(
    alloc: Global,
    names: &Names,
    term: &Term,
    printed: &[u8],
) -> Result<bool, AllocError> {
    let Some(found) = tokens_of(alloc, printed) else {
        return Ok(false);
    };
    match read_raw(alloc, printed, &found) {
        Ok(raw) => is_own(alloc, names, 0, &raw, term),
        Err(_) => Ok(false),
    }
}

/// Whether the printed form is read as the type's own tree.
fn is_typ_read_back(
    alloc: Global,
    names: &Names,
    typ: &Typ,
    printed: &[u8],
) -> Result<bool, AllocError> {
    let Some(found) = tokens_of(alloc, printed) else {
        return Ok(false);
    };
    match read_raw_typ(alloc, printed, &found) {
        Ok(raw) => is_own_typ(alloc, names, &raw, typ),
        Err(_) => Ok(false),
    }
}

/// Whether the term is printed so, and read back as the way says.
fn prints_term(alloc: Global, way: Way, term: &Term, wanted: &[u8]) -> Result<bool, AllocError> {
    let names = session(alloc)?;
    let printed = print_term(alloc, &names, term)?;
    let is_read = is_read_back(alloc, &names, term, printed.bytes())?;
    Ok(printed.bytes() == wanted && Way::of(is_read) == way)
}

/// Whether the type is printed so, and read back as the way says.
fn prints_typ(alloc: Global, way: Way, typ: &Typ, wanted: &[u8]) -> Result<bool, AllocError> {
    let names = session(alloc)?;
    let printed = print_typ(alloc, &names, typ)?;
    let is_read = is_typ_read_back(alloc, &names, typ, printed.bytes())?;
    Ok(printed.bytes() == wanted && Way::of(is_read) == way)
}

/// The outcome of a row whose text isn't in the notation.
fn unread(fault: NotationFault) -> Outcome {
    match fault {
        NotationFault::Memory => Outcome::Memory,
        _ => Outcome::Unreadable,
    }
}

/// What comes of a row of a term.
pub(crate) fn term_outcome(alloc: Global, way: Way, written: &[u8], wanted: &[u8]) -> Outcome {
    match read_term(alloc, written) {
        Ok(term) => Outcome::of_answer(prints_term(alloc, way, &term, wanted)),
        Err(fault) => unread(fault),
    }
}

/// What comes of a row of a type.
pub(crate) fn typ_outcome(alloc: Global, way: Way, written: &[u8], wanted: &[u8]) -> Outcome {
    match read_typ(alloc, written) {
        Ok(typ) => Outcome::of_answer(prints_typ(alloc, way, &typ, wanted)),
        Err(fault) => unread(fault),
    }
}

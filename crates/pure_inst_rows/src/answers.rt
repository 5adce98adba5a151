//! Answers of maps on theorems, as rows write them.
use pure_inst::InstFault;
use pure_rows::{Outcome, number_of};
use pure_shown::{cut, is_answer};
use pure_theorem::Thm;
use std::alloc::Global;

/// What a map answers.
pub(crate) type Answer = Result<Thm, InstFault>;

/// The fault of this name at a place.
fn fault_at(name: &[u8], at: u32) -> Option<InstFault> {
    match name {
        b"SortFails" => Some(InstFault::SortFails { place: at }),
        b"TypeDiffers" => Some(InstFault::TypeDiffers { place: at }),
        b"FreeInHyps" => Some(InstFault::FreeInHyps { which: at }),
        _ => None,
    }
}

/// The fault that the text names, with its place where it has one.
fn fault(text: &[u8]) -> Option<InstFault> {
    match cut(text, b' ') {
        (b"Big", b"") => Some(InstFault::Big),
        (name, place) => fault_at(name, number_of(place)?),
    }
}

/// What comes of a row whose call answers so, and whose last field is the text.
pub(crate) fn compared(alloc: Global, found: &Answer, text: &[u8]) -> Option<Outcome> {
    if let Err(InstFault::Memory) = found {
        return Some(Outcome::Memory);
    }
    let holds = is_answer(alloc, found, fault(text), text)?;
    Some(Outcome::of(holds))
}

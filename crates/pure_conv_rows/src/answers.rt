//! Answers of conversions, as rows write them.
use pure_conv::ConvFault;
use pure_rows::{Outcome, number_of};
use pure_shown::{cut, is_answer};
use pure_theorem::Thm;
use std::alloc::Global;

/// What a conversion answers.
pub(crate) type Answer = Result<Thm, ConvFault>;

/// The fault of this name.
fn plain_fault(name: &[u8]) -> Option<ConvFault> {
    match name {
        b"NotEquality" => Some(ConvFault::NotEquality),
        b"MiddleDiffers" => Some(ConvFault::MiddleDiffers),
        b"TypeDiffers" => Some(ConvFault::TypeDiffers),
        b"NotDefinition" => Some(ConvFault::NotDefinition),
        b"NothingToUnfold" => Some(ConvFault::NothingToUnfold),
        b"Big" => Some(ConvFault::Big),
        _ => None,
    }
}

/// The fault of this name at a place.
fn fault_at(name: &[u8], which: u32) -> Option<ConvFault> {
    match name {
        b"FreeInHyps" => Some(ConvFault::FreeInHyps { which }),
        b"FreeInPairs" => Some(ConvFault::FreeInPairs { which }),
        _ => None,
    }
}

/// The fault that the text names, with its place where it has one.
fn fault(text: &[u8]) -> Option<ConvFault> {
    let (name, place) = cut(text, b' ');
    if name.len() == text.len() {
        return plain_fault(name);
    }
    fault_at(name, number_of(place)?)
}

/// What comes of a row whose call answers so, and whose last field is the text.
pub(crate) fn compared(alloc: Global, found: &Answer, text: &[u8]) -> Option<Outcome> {
    if let Err(ConvFault::Memory) = found {
        return Some(Outcome::Memory);
    }
    let holds = is_answer(alloc, found, fault(text), text)?;
    Some(Outcome::of(holds))
}

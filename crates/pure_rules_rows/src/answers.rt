//! Answers of inferences, as rows write them.
use pure_rows::{Outcome, number_of};
use pure_shown::{cut, is_answer};
use pure_theorem::{RuleFault, Thm};
use std::alloc::Global;

/// What an inference answers.
pub(crate) type Answer = Result<Thm, RuleFault>;

/// The fault of this name.
fn plain_fault(name: &[u8]) -> Option<RuleFault> {
    match name {
        b"UnknownFact" => Some(RuleFault::UnknownFact),
        b"NotProp" => Some(RuleFault::NotProp),
        b"NotAll" => Some(RuleFault::NotAll),
        b"TypeDiffers" => Some(RuleFault::TypeDiffers),
        b"NotImplies" => Some(RuleFault::NotImplies),
        b"PremiseDiffers" => Some(RuleFault::PremiseDiffers),
        b"NotEquality" => Some(RuleFault::NotEquality),
        b"MiddleDiffers" => Some(RuleFault::MiddleDiffers),
        b"Mismatched" => Some(RuleFault::Mismatched),
        b"NotBeta" => Some(RuleFault::NotBeta),
        b"NotEta" => Some(RuleFault::NotEta),
        b"Big" => Some(RuleFault::Big),
        _ => None,
    }
}

/// The fault of this name at a place.
fn fault_at(name: &[u8], which: u32) -> Option<RuleFault> {
    match name {
        b"FreeInHyps" => Some(RuleFault::FreeInHyps { which }),
        b"FreeInPairs" => Some(RuleFault::FreeInPairs { which }),
        _ => None,
    }
}

/// The fault that the text names, with its place where it has one.
fn fault(text: &[u8]) -> Option<RuleFault> {
    let (name, place) = cut(text, b' ');
    if name.len() == text.len() {
        return plain_fault(name);
    }
    fault_at(name, number_of(place)?)
}

/// What comes of a row whose call answers so, and whose last field is the text.
pub(crate) fn compared(alloc: Global, found: &Answer, text: &[u8]) -> Option<Outcome> {
    if let Err(RuleFault::Memory) = found {
        return Some(Outcome::Memory);
    }
    let holds = is_answer(alloc, found, fault(text), text)?;
    Some(Outcome::of(holds))
}

//! Theorems.
ghost use Rattle.std.specs.Prelude.{IfOk, IfSome};
ghost use Rattle.pure_theorem.specs.Sets.{IsTermSet, IsLabelSet};

use crate::text::{cut, parts, term};
use pure_term::{Label, Term};
use pure_theorem::{Pair, Thm, set_of_terms, united_labels};
use std::alloc::{AllocError, Global};

/// The label of the digit.
pub fn label(digit: u8) -> Label {
    Label {
        theory: u32::from(digit),
        command: 0,
        part: 0,
    }
}

/// The set of one label.
fn one(alloc: Global, digit: u8) -> Result<Vec<Label>, AllocError>
    ensures { IfOk result (λ labels. IsLabelSet labels.items) }
{
    let labels = Vec::from_slice(alloc, &[label(digit)])?;
    Ok(labels)
}

/// The set of no labels.
fn none(alloc: Global) -> Vec<Label>
    ensures { IsLabelSet result.items }
{
    Vec::new(alloc)
}

/// The set of the labels of the digits.
fn labels(alloc: Global, digits: &[u8]) -> Result<Vec<Label>, AllocError>
    ensures { IfOk result (λ labels. IsLabelSet labels.items) }
{
    let mut set = none(alloc);
    for digit in digits {
        let more = one(alloc, *digit)?;
        set = united_labels(alloc, &set, &more)?;
    }
    Ok(set)
}

/// The set of the labels of the digits, if the text is made of digits alone.
fn rests(alloc: Global, text: &[u8]) -> Option<Vec<Label>>
    ensures { IfSome result (λ labels. IsLabelSet labels.items) }
{
    let digits = text.trim_ascii();
    if !digits.iter().all(|digit| digit.is_ascii_digit()) {
        return None;
    }
    match labels(alloc, digits) {
        Ok(set) => Some(set),
        Err(_) => None,
    }
}

/// The terms that the text writes, if it writes no type beside them.
fn terms(alloc: Global, text: &[u8]) -> Option<Vec<Term>> {
    let found = parts(alloc, text)?;
    if found.typs.is_empty() {
        Some(found.terms)
    } else {
        None
    }
}

/// The set of the terms.
fn hyps(alloc: Global, text: &[u8]) -> Option<Vec<Term>>
    ensures { IfSome result (λ terms. IsTermSet terms.items) }
{
    let found = terms(alloc, text)?;
    match set_of_terms(found) {
        Ok(set) => Some(set),
        Err(_) => None,
    }
}

/// The pairs of the terms, two for each.
fn paired(alloc: Global, sides: Vec<Term>) -> Result<Option<Vec<Pair>>, AllocError> {
    let mut terms = sides;
    let mut found = Vec::new(alloc);
    while let Some(right) = terms.pop() {
        let Some(left) = terms.pop() else {
            return Ok(None);
        };
        found.push(Pair { left, right })?;
    }
    found.reverse();
    Ok(Some(found))
}

/// The pairs whose sides the text writes.
fn pairs(alloc: Global, text: &[u8]) -> Option<Vec<Pair>> {
    let sides = terms(alloc, text)?;
    match paired(alloc, sides) {
        Ok(pairs) => pairs,
        Err(_) => None,
    }
}

/// What is behind the turnstile's first mark, if it is the rest of one.
fn behind(text: &[u8]) -> Option<&[u8]> {
    match text {
        [b'-', b' ', rest @ ..] => Some(rest),
        _ => None,
    }
}

/// The theorem that the text shows; none where it shows none, or there is no memory.
pub fn theorem(alloc: Global, text: &[u8]) -> Option<Thm> {
    let (context, rest) = cut(text, b'|');
    let (conclusion, digits) = cut(behind(rest)?, b'!');
    let (assumed, sides) = cut(context, b'&');
    let hyps = hyps(alloc, assumed)?;
    let pairs = pairs(alloc, sides)?;
    let prop = term(alloc, conclusion)?;
    let rests = rests(alloc, digits)?;
    Some(Thm {
        hyps,
        pairs,
        prop,
        rests,
    })
}

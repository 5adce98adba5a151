//! Pairs by their sides.
use pure_notation::{NotationFault, read};
use pure_term::Term;
use pure_theorem::Pair;
use std::alloc::Global;

/// Moves the last two of the terms to the pairs.
fn move_pair(terms: &mut Vec<Term>, pairs: &mut Vec<Pair>) -> Result<(), NotationFault> {
    let right = terms.pop().ok_or(NotationFault::TooFewTerms)?;
    let left = terms.pop().ok_or(NotationFault::TooFewTerms)?;
    pairs.push(Pair { left, right })?;
    Ok(())
}

/// Moves all terms to the pairs, two for each.
fn move_pairs(terms: &mut Vec<Term>, pairs: &mut Vec<Pair>) -> Result<(), NotationFault> {
    for _ in 0..terms.len().div_ceil(2) {
        move_pair(terms, pairs)?;
    }
    pairs.reverse();
    Ok(())
}

/// The pairs whose sides the text writes, in turn.
pub(crate) fn pairs(alloc: Global, text: &[u8]) -> Result<Vec<Pair>, NotationFault> {
    let mut pairs = Vec::new(alloc);
    let mut found = read(alloc, text)?;
    move_pairs(&mut found.terms, &mut pairs)?;
    if !found.typs.is_empty() {
        return Err(NotationFault::TooMany);
    }
    Ok(pairs)
}

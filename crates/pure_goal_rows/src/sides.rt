//! Pairs by their sides.
use pure_shown::parts;
use pure_term::Term;
use pure_theorem::Pair;
use std::alloc::Global;

/// Moves the last two of the terms to the pairs.
fn move_pair(terms: &mut Vec<Term>, pairs: &mut Vec<Pair>) -> Option<()> {
    let right = terms.pop()?;
    let left = terms.pop()?;
    pairs.push(Pair { left, right }).ok()
}

/// Moves all terms to the pairs, two for each.
fn move_pairs(terms: &mut Vec<Term>, pairs: &mut Vec<Pair>) -> Option<()> {
    for _ in 0..terms.len().div_ceil(2) {
        move_pair(terms, pairs)?;
    }
    pairs.reverse();
    Some(())
}

/// The pairs whose sides the text writes in turn; a point is no pair.
pub(crate) fn pairs(alloc: Global, text: &[u8]) -> Option<Vec<Pair>> {
    let mut pairs = Vec::new(alloc);
    if let b"." = text {
        return Some(pairs);
    }
    let mut found = parts(alloc, text)?;
    move_pairs(&mut found.terms, &mut pairs)?;
    if !found.typs.is_empty() {
        return None;
    }
    Some(pairs)
}

//! Answers held against one another.
use crate::shown::theorem;
use pure_theorem::{Pair, Thm};
use std::alloc::Global;

/// Whether the pairs are equal, one after another.
fn are_same_pairs(pairs: &[Pair], others: &[Pair]) -> bool {
    if pairs.len() != others.len() {
        return false;
    }
    for (pair, other) in pairs.iter().zip(others.iter()) {
        if pair.left != other.left || pair.right != other.right {
            return false;
        }
    }
    true
}

/// Whether the theorems are equal.
fn are_equal(th: &Thm, other: &Thm) -> bool {
    th.hyps.as_slice() == other.hyps.as_slice()
        && are_same_pairs(&th.pairs, &other.pairs)
        && th.prop == other.prop
        && th.rests.as_slice() == other.rests.as_slice()
}

/// Whether the theorem is the one that the text shows. None where it shows none, or there is no memory.
fn is_shown(alloc: Global, th: &Thm, text: &[u8]) -> Option<bool> {
    let other = theorem(alloc, text)?;
    Some(are_equal(th, &other))
}

/// Whether the answer is the fault, or where there is none the theorem that the text shows. None where the text shows none,
/// or there is no memory.
pub fn is_answer<F: Copy + PartialEq>(
    alloc: Global,
    found: &Result<Thm, F>,
    fault: Option<F>,
    text: &[u8],
) -> Option<bool> {
    match (found, fault) {
        (Err(own), Some(fault)) => Some(*own == fault),
        (Ok(_), Some(_)) => Some(false),
        (Ok(th), None) => is_shown(alloc, th, text),
        (Err(_), None) => {
            let _readable = theorem(alloc, text)?;
            Some(false)
        }
    }
}

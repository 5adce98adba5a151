//! What goals and theorems must be at the places of a proof.
use crate::faults::fault;
use crate::terms::lettered;
use pure_goal_steps::StepFault;
use pure_rows::{Glossary, Row};
use pure_term::Term;
use pure_theorem::{Pair, Thm};
use std::alloc::Global;
use std::mem;

/// What a call answers: a goal or a theorem of this proposition, in letters; a goal with one pair, by its proposition and the sides; or a fault.
#[derive(Clone, Copy)]
pub(crate) enum Wanted<'r> {
    Prop(&'r [u8]),
    Paired(&'r [u8], &'r [u8], &'r [u8]),
    Fault(StepFault),
}

/// What the fields behind the row's first want.
pub(crate) fn read_wanted(row: &Row) -> Option<Wanted<'_>> {
    let answer = row.field(1);
    match row.len() {
        2 => match fault(answer) {
            Some(fault) => Some(Wanted::Fault(fault)),
            None => Some(Wanted::Prop(answer)),
        },
        4 => Some(Wanted::Paired(answer, row.field(2), row.field(3))),
        _ => None,
    }
}

/// Whether the term is the one that the letters write.
fn is_term(alloc: Global, letters: &Glossary, t: &Term, text: &[u8]) -> Option<bool> {
    let wanted = lettered(alloc, letters, text)?;
    let answer = *t == wanted;
    mem::forget(wanted);
    Some(answer)
}

/// Whether the theorem is of this proposition, without hypotheses and promises, and with so many pairs.
fn is_with(alloc: Global, letters: &Glossary, th: &Thm, text: &[u8], pairs: usize) -> Option<bool> {
    let is_prop = is_term(alloc, letters, &th.prop, text)?;
    Some(is_prop && th.hyps.is_empty() && th.pairs.len() == pairs && th.rests.is_empty())
}

/// Whether the first of the pairs has these sides.
fn begins_with(
    alloc: Global,
    letters: &Glossary,
    pairs: &[Pair],
    left: &[u8],
    right: &[u8],
) -> Option<bool> {
    let Some(pair) = pairs.first() else {
        return Some(false);
    };
    let is_left = is_term(alloc, letters, &pair.left, left)?;
    let is_right = is_term(alloc, letters, &pair.right, right)?;
    Some(is_left && is_right)
}

/// Whether the theorem is that of a lemma's first goal, which the letters write.
pub(crate) fn is_first(alloc: Global, letters: &Glossary, th: &Thm, text: &[u8]) -> Option<bool> {
    is_with(alloc, letters, th, text, 0)
}

/// Whether the theorem is what is wanted. None where what is wanted can't be read.
pub(crate) fn is_wanted(
    alloc: Global,
    letters: &Glossary,
    th: &Thm,
    wanted: Wanted<'_>,
) -> Option<bool> {
    match wanted {
        Wanted::Prop(text) => is_with(alloc, letters, th, text, 0),
        Wanted::Paired(text, left, right) => {
            let is_with = is_with(alloc, letters, th, text, 1)?;
            let begins = begins_with(alloc, letters, &th.pairs, left, right)?;
            Some(is_with && begins)
        }
        Wanted::Fault(_) => Some(false),
    }
}

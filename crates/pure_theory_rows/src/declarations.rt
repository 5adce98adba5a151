//! Declarations one after another, and the answers to one more.
use crate::kept::{Kept, keep, last};
use crate::notation::{Answer, answer_of, declare, given, name, number, pure};
use crate::promises::promised;
use crate::stop::Stop;
use pure_rows::{Outcome, Row};
use pure_term::Name;
use pure_theory::{Stage, Theory};
use std::alloc::Global;

/// What Pure itself declares.
pub(crate) const PURE_COUNT: u32 = 7;

/// The promise with which a text begins, and what stands behind it.
fn promise_first(text: &[u8]) -> (Option<Name>, &[u8]) {
    match text {
        [byte, b'?'] => (Some(name(*byte)), b""),
        [byte, b'?', b' ', rest @ ..] => (Some(name(*byte)), rest),
        _ => (None, text),
    }
}

/// Puts the theories behind the last one that the declarations make, one after another.
pub(crate) fn grow(alloc: Global, stages: &mut Vec<Stage>, text: &[u8]) -> Result<(), Stop> {
    if text.is_empty() {
        return Ok(());
    }
    for word in text.split(|byte| *byte == b' ') {
        let made = declare(alloc, last(stages)?, word);
        keep(alloc, stages, made)?;
    }
    Ok(())
}

/// Puts Pure behind the theories, or Pure with the promise that the text begins with, and those that the declarations make.
pub(crate) fn declared(alloc: Global, stages: &mut Vec<Stage>, text: &[u8]) -> Result<(), Stop> {
    let (promise, rest) = promise_first(text);
    let first = match promise {
        Some(name) => promised(alloc, name),
        None => pure(alloc),
    };
    keep(alloc, stages, first)?;
    grow(alloc, stages, rest)
}

/// Whether the theory has so many declarations beside Pure's.
pub(crate) fn has_count(theory: &Theory, count: u32) -> bool {
    let all = count.saturating_add(PURE_COUNT);
    let last = all.saturating_sub(1);
    theory.decl_at(last).is_some() && theory.decl_at(all).is_none()
}

/// Whether the last theory has so many declarations beside Pure's.
fn last_has_count(stages: &[Stage], count: u32) -> bool {
    match last(stages) {
        Ok(theory) => has_count(theory, count),
        Err(_) => false,
    }
}

/// Whether the answer is the wanted one, and the theory has so many declarations before and, if it may, so many afterwards.
pub(crate) fn is_answered(
    alloc: Global,
    stages: &mut Vec<Stage>,
    made: Result<Theory, Stop>,
    wanted: Answer,
    counts: (u32, u32),
) -> Result<bool, Stop> {
    let stays = last_has_count(stages, counts.0);
    match keep(alloc, stages, made) {
        Ok(()) => Ok(stays && wanted.is_none() && last_has_count(stages, counts.1)),
        Err(Stop::Refused(fault)) => Ok(stays && wanted == Some(fault)),
        Err(stop) => Err(stop),
    }
}

/// One declaration more; a promise is declared over Pure alone.
fn asked(alloc: Global, stages: &[Stage], over: &[u8], word: &[u8]) -> Result<Theory, Stop> {
    match promise_first(word) {
        (Some(name), b"") if over.is_empty() => promised(alloc, name),
        _ => declare(alloc, last(stages)?, word),
    }
}

/// `declare`: declarations, how many they are, one more, and the answer to it.
pub(crate) fn declare_row(alloc: Global, kept: &mut Kept, row: &Row) -> Result<Outcome, Stop> {
    let count = number(row, 2)?;
    let wanted = answer_of(row.field(4))?;
    let stages = &mut kept.stages;
    declared(alloc, stages, given(row, 1))?;
    let made = asked(alloc, stages, given(row, 1), row.field(3));
    let counts = (count, count.saturating_add(1));
    Ok(Outcome::of(is_answered(alloc, stages, made, wanted, counts)?))
}

//! What became of the promises of a core.
use crate::fields::NONE;
use pure_core::{Core, Promise, Standing};
use pure_trials::Session;
use std::alloc::{AllocError, Global};

/// How a promise stands: `o` or `x` where its outcome is none or a fault, `c` where it is cancelled, `?` where it is open.
fn letter(standing: &Standing<bool>) -> u8 {
    match standing {
        Standing::Settled { outcome } => match **outcome {
            true => b'x',
            false => b'o',
        },
        Standing::Cancelled => b'c',
        _ => b'?',
    }
}

/// How all promises stand, in order of their numbers.
fn letters(alloc: Global, core: &Core<Session>) -> Result<Vec<u8>, AllocError> {
    let mut text = Vec::new(alloc);
    for number in 0..core.count() {
        text.push(letter(&core.promise(number).standing))?;
    }
    Ok(text)
}

/// The digits, by what they stand for.
const DIGITS: &[u8] = b"0123456789";

/// Adds how the promise stands, behind the digit of its command, where that isn't the first.
fn push_commanded(text: &mut Vec<u8>, promise: &Promise<bool, bool>) -> Result<(), AllocError> {
    if promise.command != 0 {
        let digit = match DIGITS.get(promise.command as usize) {
            None => b'?',
            Some(digit) => *digit,
        };
        text.push(digit)?;
    }
    text.push(letter(&promise.standing))?;
    Ok(())
}

/// How all promises stand, in order of their numbers, each behind its command.
fn commanded_letters(alloc: Global, core: &Core<Session>) -> Result<Vec<u8>, AllocError> {
    let mut text = Vec::new(alloc);
    for number in 0..core.count() {
        push_commanded(&mut text, core.promise(number))?;
    }
    Ok(text)
}

/// Whether it is the text that was wanted, with a mark where there is none.
fn is_wanted(text: &[u8], wanted: &[u8]) -> bool {
    if text.is_empty() {
        return wanted == NONE;
    }
    text == wanted
}

/// Whether the promises stand so, in order of their numbers.
pub(crate) fn stand(
    alloc: Global,
    core: &Core<Session>,
    wanted: &[u8],
) -> Result<bool, AllocError> {
    let text = letters(alloc, core)?;
    Ok(is_wanted(text.as_slice(), wanted))
}

/// Whether the promises stand so, in order of their numbers, each behind its command.
pub(crate) fn stand_commanded(
    alloc: Global,
    core: &Core<Session>,
    wanted: &[u8],
) -> Result<bool, AllocError> {
    let text = commanded_letters(alloc, core)?;
    Ok(is_wanted(text.as_slice(), wanted))
}

/// How many of the promises stand so.
pub(crate) fn count_of(core: &Core<Session>, wanted: u8) -> u32 {
    let mut count = 0u32;
    for number in 0..core.count() {
        if letter(&core.promise(number).standing) == wanted {
            count = count.wrapping_add(1);
        }
    }
    count
}

/// Whether the promise is settled as its goal wants it.
fn is_as_wanted(promise: &Promise<bool, bool>) -> bool {
    match &promise.standing {
        Standing::Settled { outcome } => **outcome == *promise.goal,
        _ => false,
    }
}

/// The outcomes of a theory's promises, in order of their numbers, as far as they are settled as their goals want it and the n-th is of
/// the n-th command.
fn outcomes(alloc: Global, core: &Core<Session>, theory: u32) -> Result<Vec<bool>, AllocError> {
    let mut found = Vec::new(alloc);
    for number in 0..core.count() {
        let promise = core.promise(number);
        if promise.theory == theory
            && promise.command as usize == found.len()
            && is_as_wanted(promise)
        {
            found.push(*promise.goal)?;
        }
    }
    Ok(found)
}

/// Whether each theory's lemmas have the outcomes that the session says, in order; those of a session stand the last first.
pub(crate) fn are_all_settled(
    alloc: Global,
    session: &Session,
    core: &Core<Session>,
) -> Result<bool, AllocError> {
    let mut theory = 0u32;
    for lemmas in &session.lemmas {
        theory = theory.wrapping_add(1);
        let mut found = outcomes(alloc, core, theory)?;
        found.reverse();
        if found.as_slice() != lemmas.as_slice() {
            return Ok(false);
        }
    }
    Ok(true)
}

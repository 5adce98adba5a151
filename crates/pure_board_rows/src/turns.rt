//! Turns of a play, as they are written.
use crate::fields::{cut, is_fault, number};
use pure_plays::{Call, Reply, Turn};
use pure_rows::{Fault, named};
use std::alloc::Global;

/// The first word, and what stands behind it.
fn first_word(text: &[u8]) -> (&[u8], &[u8]) {
    cut(text, b' ')
}

/// The calls of one word.
const CALLS: [(&[u8], Call); 3] = [
    (b"take", Call::Take),
    (b"poll", Call::Poll),
    (b"stop", Call::Stop),
];

/// The calls with something behind them.
#[derive(Clone, Copy)]
enum With {
    Fork,
    Close,
    Deliver,
}

/// Their words.
const CALLS_WITH: [(&[u8], With); 3] = [
    (b"fork", With::Fork),
    (b"close", With::Close),
    (b"deliver", With::Deliver),
];

/// The fork that is written so: the digit of its command, where that isn't the first, and its goal.
fn fork_of(given: &[u8]) -> Result<Call, Fault> {
    if given.len() < 2 {
        return Ok(Call::Fork(0, is_fault(given)?));
    }
    let command = number(&given[..1])?;
    Ok(Call::Fork(command, is_fault(&given[1..])?))
}

/// The call with this behind it.
fn call_with(word: &[u8], given: &[u8]) -> Result<Call, Fault> {
    match named(&CALLS_WITH, word) {
        Some(With::Fork) => fork_of(given),
        Some(With::Close) => Ok(Call::Close(number(given)?)),
        Some(With::Deliver) => Ok(Call::Deliver(is_fault(given)?)),
        None => Err(Fault::Unreadable),
    }
}

/// The call that the words begin with, and the words behind it.
fn call_of(words: &[u8]) -> Result<(Call, &[u8]), Fault> {
    let (word, rest) = first_word(words);
    if let Some(call) = named(&CALLS, word) {
        return Ok((call, rest));
    }
    let (given, behind) = first_word(rest);
    Ok((call_with(word, given)?, behind))
}

/// The replies of one word.
const REPLIES: [(&[u8], Reply); 7] = [
    (b"idle", Reply::Idle),
    (b"finished", Reply::Finished),
    (b"stopped", Reply::Stopped),
    (b"closed", Reply::Closed),
    (b"kept", Reply::Kept),
    (b"cancelled", Reply::Cancelled),
    (b"go", Reply::Go),
];

/// The replies of several words.
#[derive(Clone, Copy)]
enum Several {
    Theory,
    Proof,
    Forked,
}

/// Their first words.
const REPLIES_OF_SEVERAL: [(&[u8], Several); 3] = [
    (b"theory", Several::Theory),
    (b"proof", Several::Proof),
    (b"forked", Several::Forked),
];

/// The reply that these words are.
fn reply_of(words: &[u8]) -> Result<Reply, Fault> {
    let (word, rest) = first_word(words);
    let (first, second) = first_word(rest);
    match named(&REPLIES_OF_SEVERAL, word) {
        Some(Several::Theory) => Ok(Reply::Theory(number(first)?, number(second)?)),
        Some(Several::Proof) => Ok(Reply::Proof(number(first)?, is_fault(second)?)),
        Some(Several::Forked) => Ok(Reply::Forked(number(rest)?)),
        None => named(&REPLIES, words).ok_or(Fault::Unreadable),
    }
}

/// The turn that is written so: a seat, a call and the reply to it.
fn turn_of(written: &[u8], seats: u32) -> Result<Turn, Fault> {
    let (seat, words) = first_word(written);
    let seat = number(seat)?;
    if seat >= seats {
        return Err(Fault::Unreadable);
    }
    let (call, words) = call_of(words)?;
    Ok((seat as usize, call, reply_of(words)?))
}

/// The turns of a play at so many seats; there is one.
pub(crate) fn turns_of(alloc: Global, fields: &[Vec<u8>], seats: u32) -> Result<Vec<Turn>, Fault> {
    if fields.is_empty() {
        return Err(Fault::Unreadable);
    }
    let mut turns = Vec::new(alloc);
    for field in fields {
        turns.push(turn_of(field, seats)?)?;
    }
    Ok(turns)
}

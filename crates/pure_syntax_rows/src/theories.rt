//! The trees of theories, and the places of their faults.
use crate::say::{say, say_number};
use crate::source::tokens_of;
use crate::theory::say_theory;
use pure_lex::{Token, TokenKind};
use pure_rows::{Outcome, Row, Subject};
use pure_script::{ScriptFault, TheoryText, read_theory};
use std::alloc::{AllocError, Global};
use std::rt::Files;

/// The reading of theories.
pub(crate) struct Theories;

impl Subject for Theories {
    fn outcome<R: Files + Print + AllocGlobal>(
        &self,
        _rt: &R,
        alloc: Global,
        row: &Row,
    ) -> Outcome {
        match (row.field(0), row.len()) {
            (b"theory", 3) => outcome_of(alloc, row.field(1), row.field(2)),
            (b"cut", 3) => changes_outcome(alloc, Change::cut(), row.field(1), row.field(2)),
            (b"change", 5) => match row.number(2) {
                Some(times) => {
                    let change = Change::of(times, row.field(3));
                    changes_outcome(alloc, change, row.field(1), row.field(4))
                }
                None => Outcome::Unreadable,
            },
            (b"many", 2) => match row.number(1) {
                Some(count) => many_outcome(alloc, count),
                None => Outcome::Unreadable,
            },
            (b"haves", 2) => match row.number(1) {
                Some(count) => haves_outcome(alloc, count),
                None => Outcome::Unreadable,
            },
            _ => Outcome::Unreadable,
        }
    }
}

/// Whether the tree of the theory is written so.
fn is_theory(
    alloc: Global,
    source: &[u8],
    theory: &TheoryText,
    wanted: &[u8],
) -> Result<bool, AllocError> {
    let mut shown = Vec::new(alloc);
    say_theory(alloc, &mut shown, source, theory)?;
    Ok(shown.as_slice() == wanted)
}

/// Whether the fault is written so: its place, and the kind of token that may stand there.
fn is_fault(
    alloc: Global,
    at: u32,
    expected: TokenKind,
    wanted: &[u8],
) -> Result<bool, AllocError> {
    let shown = format!(in alloc; "at {at} {expected:?}")?;
    Ok(shown.as_bytes() == wanted)
}

/// Whether the source is read so, or none where it has no tokens.
fn is_read_as(alloc: Global, source: &[u8], wanted: &[u8]) -> Result<Option<bool>, AllocError> {
    let Some(found) = tokens_of(alloc, source)? else {
        return Ok(None);
    };
    match read_theory(alloc, source, &found) {
        Ok(theory) => Ok(Some(is_theory(alloc, source, &theory, wanted)?)),
        Err(ScriptFault::Syntax { at, expected }) => {
            Ok(Some(is_fault(alloc, at, expected, wanted)?))
        }
        Err(ScriptFault::Memory) => Err(AllocError),
    }
}

/// What comes of a row of a theory.
fn outcome_of(alloc: Global, source: &[u8], wanted: &[u8]) -> Outcome {
    match is_read_as(alloc, source, wanted) {
        Ok(Some(holds)) => Outcome::of(holds),
        Ok(None) => Outcome::Unreadable,
        Err(_) => Outcome::Memory,
    }
}

/// A change of one token of a text: how often the token stands there, what is put behind it, and whether the text goes on.
#[derive(Clone, Copy)]
struct Change<'r> {
    times: u32,
    put: &'r [u8],
    goes_on: bool,
}

impl<'r> Change<'r> {
    /// Nothing in the token's place and behind it.
    fn cut() -> Change<'r> {
        Change {
            times: 0,
            put: b"",
            goes_on: false,
        }
    }

    /// The token so often, with this behind it.
    fn of(times: u32, put: &'r [u8]) -> Change<'r> {
        Change {
            times,
            put,
            goes_on: true,
        }
    }
}

/// The text with the change of this token.
fn changed(
    alloc: Global,
    text: &[u8],
    token: Token,
    change: &Change,
) -> Result<Vec<u8>, AllocError> {
    let from = token.from as usize;
    let to = token.to as usize;
    let mut other = Vec::new(alloc);
    other.extend_from_slice(text.get(..from).unwrap_or(text))?;
    for _ in 0..change.times {
        other.extend_from_slice(text.get(from..to).unwrap_or(text))?;
        other.push(b' ')?;
    }
    other.extend_from_slice(change.put)?;
    if change.goes_on {
        other.extend_from_slice(text.get(to..).unwrap_or(text))?;
    }
    Ok(other)
}

/// Writes the place of a fault, and the first letter of the kind that is expected there.
fn say_short_fault(
    alloc: Global,
    shown: &mut Vec<u8>,
    at: u32,
    expected: TokenKind,
) -> Result<(), AllocError> {
    say_number(alloc, shown, at)?;
    let kind = format!(in alloc; "{expected:?}")?;
    shown.push(kind.as_bytes().first().copied().unwrap_or(b'?'))?;
    Ok(())
}

/// Writes what a source is in short: `ok`, or its fault.
fn say_short(alloc: Global, shown: &mut Vec<u8>, source: &[u8]) -> Result<(), AllocError> {
    let Some(found) = tokens_of(alloc, source)? else {
        return say(shown, "no tokens");
    };
    match read_theory(alloc, source, &found) {
        Ok(_) => say(shown, "ok"),
        Err(ScriptFault::Syntax { at, expected }) => say_short_fault(alloc, shown, at, expected),
        Err(ScriptFault::Memory) => Err(AllocError),
    }
}

/// Whether the change of each of these tokens in turn makes this of the text.
fn are_changes(
    alloc: Global,
    change: &Change,
    text: &[u8],
    tokens: &[Token],
    wanted: &[u8],
) -> Result<bool, AllocError> {
    let mut shown = Vec::new(alloc);
    for token in tokens {
        let other = changed(alloc, text, *token, change)?;
        if !shown.is_empty() {
            say(&mut shown, " ")?;
        }
        say_short(alloc, &mut shown, &other)?;
    }
    Ok(shown.as_slice() == wanted)
}

/// What comes of a row of a change.
fn changes_outcome(alloc: Global, change: Change, text: &[u8], wanted: &[u8]) -> Outcome {
    match tokens_of(alloc, text) {
        Ok(Some(tokens)) => Outcome::of_answer(are_changes(alloc, &change, text, &tokens, wanted)),
        Ok(None) => Outcome::Unreadable,
        Err(_) => Outcome::Memory,
    }
}

/// Writes a theory of so many classes, and its tree.
fn say_classes(
    alloc: Global,
    source: &mut Vec<u8>,
    tree: &mut Vec<u8>,
    count: u32,
) -> Result<(), AllocError> {
    say(source, "theory A begin")?;
    say(tree, "A: Pure;")?;
    for number in 0..count {
        say(source, " class c")?;
        say_number(alloc, source, number)?;
        say(tree, " class c")?;
        say_number(alloc, tree, number)?;
        say(tree, " <;")?;
    }
    say(source, " end")
}

/// What comes of a row of so many classes: a theory of them has them all.
fn many_outcome(alloc: Global, count: u32) -> Outcome {
    let mut source = Vec::new(alloc);
    let mut tree = Vec::new(alloc);
    match say_classes(alloc, &mut source, &mut tree, count) {
        Ok(()) => outcome_of(alloc, &source, &tree),
        Err(_) => Outcome::Memory,
    }
}

/// Writes a lemma of so many haves, and its tree.
fn say_lemma(
    alloc: Global,
    source: &mut Vec<u8>,
    tree: &mut Vec<u8>,
    count: u32,
) -> Result<(), AllocError> {
    say(source, "version 2 theory A begin lemma k: \"P\"")?;
    say(tree, "version 2 A: Pure; lemma k P")?;
    for number in 0..count {
        say(source, " have h")?;
        say_number(alloc, source, number)?;
        say(source, ": \"Q\" defer done")?;
        say(tree, " [have h")?;
        say_number(alloc, tree, number)?;
        say(tree, " Q defer done]")?;
    }
    say(source, " done end")?;
    say(tree, " done;")
}

/// What comes of a row of so many haves: a lemma of them has them all.
fn haves_outcome(alloc: Global, count: u32) -> Outcome {
    let mut source = Vec::new(alloc);
    let mut tree = Vec::new(alloc);
    match say_lemma(alloc, &mut source, &mut tree, count) {
        Ok(()) => outcome_of(alloc, &source, &tree),
        Err(_) => Outcome::Memory,
    }
}

//! Sessions, policies and numbers, as fields give them.
use pure_core::{Cancel, Group, Node, Policy};
use pure_rows::{Fault, named, number_of};
use pure_trials::{Session, is_shape};
use std::alloc::Global;

/// What stands for none.
pub(crate) const NONE: &[u8] = b"-";

/// Whether the byte parts words.
pub(crate) fn is_blank(byte: &u8) -> bool {
    *byte == b' '
}

/// The number that is written so.
pub(crate) fn number(written: &[u8]) -> Result<u32, Fault> {
    number_of(written).ok_or(Fault::Unreadable)
}

/// The number that is written so, which isn't 0.
pub(crate) fn positive(written: &[u8]) -> Result<u32, Fault> {
    match number(written)? {
        0 => Err(Fault::Unreadable),
        number => Ok(number),
    }
}

/// The letters for proofs, and whether they fail.
const LETTERS: [(&[u8], bool); 2] = [(b"x", true), (b"o", false)];

/// Whether the letter stands for a proof that fails.
pub(crate) fn is_fault(letter: &[u8]) -> Result<bool, Fault> {
    named(&LETTERS, letter).ok_or(Fault::Unreadable)
}

/// What stands in front of the first such byte, and behind it, or all and nothing where there is none.
pub(crate) fn cut(text: &[u8], mark: u8) -> (&[u8], &[u8]) {
    match text.iter().position(|byte| *byte == mark) {
        Some(end) => (&text[..end], &text[end + 1..]),
        None => (text, b""),
    }
}

/// The parents whose numbers these digits are.
pub(crate) fn parents_of(alloc: Global, digits: &[u8]) -> Result<Vec<u32>, Fault> {
    let mut parents = Vec::new(alloc);
    for digit in digits.chunks(1) {
        parents.push(number(digit)?)?;
    }
    Ok(parents)
}

/// For each lemma whether its proof fails, the last lemma first.
fn lemmas_of(alloc: Global, letters: &[u8]) -> Result<Vec<bool>, Fault> {
    let mut lemmas = Vec::new(alloc);
    for letter in letters.chunks(1) {
        lemmas.push(is_fault(letter)?)?;
    }
    lemmas.reverse();
    Ok(lemmas)
}

/// Adds a theory: the numbers of its parents as digits, a colon, and for each of its lemmas a letter.
fn push_theory(alloc: Global, session: &mut Session, theory: &[u8]) -> Result<(), Fault> {
    if !theory.contains(&b':') {
        return Err(Fault::Unreadable);
    }
    let (digits, letters) = cut(theory, b':');
    let parents = parents_of(alloc, digits)?;
    session.shape.push(Node { parents })?;
    session.lemmas.push(lemmas_of(alloc, letters)?)?;
    Ok(())
}

/// Adds these theories, with blanks between them.
fn push_theories(alloc: Global, session: &mut Session, theories: &[u8]) -> Result<(), Fault> {
    if theories == NONE {
        return Ok(());
    }
    for theory in theories.split(is_blank) {
        push_theory(alloc, session, theory)?;
    }
    if is_shape(session.shape.as_slice()) {
        Ok(())
    } else {
        Err(Fault::Unreadable)
    }
}

/// The session of these theories.
pub(crate) fn session_of(alloc: Global, theories: &[u8]) -> Result<Session, Fault> {
    let mut session = Session {
        shape: Vec::new(alloc),
        lemmas: Vec::new(alloc),
    };
    push_theories(alloc, &mut session, theories)?;
    Ok(session)
}

/// The cancellation of a group, a theory's number or 0 for the session, behind a colon and after so many deliveries.
fn cancel_of(written: &[u8]) -> Result<Cancel, Fault> {
    let (index, after) = cut(written, b':');
    let group = match number(index)? {
        0 => Group::Session,
        index => Group::Theory { index },
    };
    Ok(Cancel {
        group,
        after: number(after)?,
    })
}

/// Adds what the word says to the policy.
fn push_word(policy: &mut Policy, word: &[u8]) -> Result<(), Fault> {
    if word == b"fail-fast".as_slice() {
        policy.fail_fast = true;
        return Ok(());
    }
    policy.cancels.push(cancel_of(word)?)?;
    Ok(())
}

/// Adds what these words say, with blanks between them.
fn push_words(policy: &mut Policy, words: &[u8]) -> Result<(), Fault> {
    if words != NONE {
        for word in words.split(is_blank) {
            push_word(policy, word)?;
        }
    }
    Ok(())
}

/// The policy of these words.
pub(crate) fn policy_of(alloc: Global, words: &[u8]) -> Result<Policy, Fault> {
    let mut policy = Policy {
        fail_fast: false,
        cancels: Vec::new(alloc),
    };
    push_words(&mut policy, words)?;
    Ok(policy)
}

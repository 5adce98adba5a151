//! The fates of the lemmas of a row.
use crate::lemma::Lemma;
use crate::order::are_in_order;
use crate::written::{Word, label_at, words};
use pure_promise_fates::{Fate, fate_of, is_proved, reaches};
use pure_rows::{Outcome, Row, Subject};
use std::alloc::{AllocError, Global};
use std::rt::Files;

/// The calls on fates.
pub(crate) struct Fates;

impl Subject for Fates {
    fn outcome<R: Files + Print + AllocGlobal>(
        &self,
        _rt: &R,
        alloc: Global,
        row: &Row,
    ) -> Outcome {
        match (row.field(0), row.len()) {
            (b"fates", 3) => outcome_of(tried(alloc, row.field(1), row.field(2))),
            _ => Outcome::Unreadable,
        }
    }
}

/// The outcome of what was tried, where it could be read.
fn outcome_of(tried: Result<Option<bool>, AllocError>) -> Outcome {
    match tried {
        Ok(Some(holds)) => Outcome::of(holds),
        Ok(None) => Outcome::Unreadable,
        Err(_) => Outcome::Memory,
    }
}

/// The number for what became of a lemma.
fn own_of(letter: u8) -> Option<u32> {
    match letter {
        b's' => Some(0),
        b'f' => Some(1),
        b'c' => Some(2),
        _ => None,
    }
}

/// The lemmas of the words; none where a letter says nothing.
fn lemmas_of(alloc: Global, given: Vec<Word>) -> Result<Option<Vec<Lemma>>, AllocError> {
    let mut lemmas = Vec::new(alloc);
    let mut place = 0_u32;
    for word in given {
        let Some(own) = own_of(word.letter) else {
            return Ok(None);
        };
        lemmas.push(Lemma {
            label: label_at(place),
            own,
            rests: word.labels,
        })?;
        place = place.saturating_add(1);
    }
    Ok(Some(lemmas))
}

/// The letter of a fate.
fn letter_of(fate: &Fate) -> u8 {
    match fate {
        Fate::Proved => b'P',
        Fate::Failed => b'F',
        Fate::Tainted { .. } => b'T',
        Fate::Gone => b'G',
        Fate::Unsettled => b'U',
    }
}

/// Whether the fate is as told.
fn is_told(fate: &Fate, told: &Word) -> bool {
    let same = match fate {
        Fate::Tainted { faults } => faults.as_slice() == told.labels.as_slice(),
        _ => told.labels.is_empty(),
    };
    same && letter_of(fate) == told.letter
}

/// Whether each lemma has the fate that is told; none where they aren't in order, or not as many are told.
fn have_fates(alloc: Global, lemmas: &[Lemma], told: &[Word]) -> Result<Option<bool>, AllocError> {
    if !are_in_order(lemmas) || told.len() != lemmas.len() {
        return Ok(None);
    }
    let reached = reaches(alloc, lemmas)?;
    for place in 0..lemmas.len() {
        let fate = fate_of(alloc, lemmas, &reached, place)?;
        let proved = is_proved(lemmas, &reached, place);
        let word = &told[place];
        if !is_told(&fate, word) || proved != (word.letter == b'P') {
            return Ok(Some(false));
        }
    }
    Ok(Some(true))
}

/// Whether the lemmas have the fates; none where one can't be read.
fn tried(alloc: Global, given: &[u8], told: &[u8]) -> Result<Option<bool>, AllocError> {
    let Some(given) = words(alloc, given)? else {
        return Ok(None);
    };
    let Some(told) = words(alloc, told)? else {
        return Ok(None);
    };
    match lemmas_of(alloc, given)? {
        Some(lemmas) => have_fates(alloc, &lemmas, &told),
        None => Ok(None),
    }
}

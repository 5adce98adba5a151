//! Lemmas and fates as rows write them: a letter, and the places of lemmas behind it with commas between them.
use pure_rows::number_of;
use pure_typ::Label;
use std::alloc::{AllocError, Global};

/// A word of a row.
#[derive(Drop)]
pub(crate) struct Word {
    pub(crate) letter: u8,
    pub(crate) labels: Vec<Label>,
}

/// The label of the lemma at the place: three commands a theory.
pub(crate) fn label_at(place: u32) -> Label {
    Label {
        theory: place / 3,
        command: place % 3,
        part: 0,
    }
}

/// The labels of the lemmas at the places, which have commas between them; none where one isn't a number.
fn labels_at(alloc: Global, places: &[u8]) -> Result<Option<Vec<Label>>, AllocError> {
    let mut labels = Vec::new(alloc);
    if places.is_empty() {
        return Ok(Some(labels));
    }
    for digits in places.split(|byte| *byte == b',') {
        match number_of(digits) {
            Some(place) => labels.push(label_at(place))?,
            None => return Ok(None),
        }
    }
    Ok(Some(labels))
}

/// Adds the word; false where it is none.
fn push_word(alloc: Global, words: &mut Vec<Word>, text: &[u8]) -> Result<bool, AllocError> {
    let [letter, places @ ..] = text else {
        return Ok(false);
    };
    let Some(labels) = labels_at(alloc, places)? else {
        return Ok(false);
    };
    words.push(Word {
        letter: *letter,
        labels,
    })?;
    Ok(true)
}

/// The words of the field, with a blank between two; `-` stands for none. None is given where one can't be read.
pub(crate) fn words(alloc: Global, field: &[u8]) -> Result<Option<Vec<Word>>, AllocError> {
    let mut words = Vec::new(alloc);
    if field == b"-".as_slice() {
        return Ok(Some(words));
    }
    for text in field.split(|byte| *byte == b' ') {
        if !push_word(alloc, &mut words, text)? {
            return Ok(None);
        }
    }
    Ok(Some(words))
}

//! Rows of a few lemmas that rest on one another, and the labels that are joined.
use crate::grounds::may_join;
use crate::lemmas::push_lemmas;
use crate::names::label_at;
use crate::order::are_listed;
use pure_print::{Row as Printed, print_row};
use pure_promise::{Entry, join, rows};
use pure_rows::{Row, number_of};
use pure_term::{Label, Names};
use std::alloc::{AllocError, Global};
use std::mem;

/// The text of the field, which is a point where there is none.
fn text_of_field(field: &[u8]) -> &[u8] {
    match field {
        b"." => b"",
        _ => field,
    }
}

/// The rows as they are printed.
fn printed(alloc: Global, rows: &[Printed]) -> Result<Vec<u8>, AllocError> {
    let mut text = Vec::new(alloc);
    for row in rows {
        let line = print_row(alloc, row)?;
        text.extend_from_slice(line.bytes())?;
    }
    Ok(text)
}

/// Whether the lemmas have these rows.
fn have_rows(alloc: Global, names: &Names, lemmas: &[Entry], text: &[u8]) -> Option<bool> {
    if !are_listed(lemmas) {
        return None;
    }
    let rows = rows(alloc, names, lemmas).ok()?;
    let own = printed(alloc, &rows).ok()?;
    Some(own.as_slice() == text)
}

/// Whether the labels are those at the places.
fn are_at(labels: &[Label], places: &[Vec<u8>]) -> Option<bool> {
    if labels.len() != places.len() {
        return Some(false);
    }
    for (label, place) in labels.iter().zip(places.iter()) {
        if *label != label_at(number_of(place)?) {
            return Some(false);
        }
    }
    Some(true)
}

/// Whether the lemmas at these places are joined.
fn are_joined(alloc: Global, lemmas: &[Entry], places: &[Vec<u8>]) -> Option<bool> {
    if !may_join(lemmas) {
        return None;
    }
    let labels = join(alloc, lemmas).ok()?;
    are_at(&labels, places)
}

/// Whether the lemmas have the row's text, and those at its places are joined.
fn are_told(alloc: Global, names: &Names, lemmas: &[Entry], row: &Row) -> Option<bool> {
    let have_rows = have_rows(alloc, names, lemmas, text_of_field(row.field(2)))?;
    let are_joined = are_joined(alloc, lemmas, row.fields_from(3))?;
    Some(have_rows && are_joined)
}

/// Whether the lemmas of the row's letters have its text, and those at its places are joined.
pub(crate) fn lemma_rows(alloc: Global, names: &Names, row: &Row) -> Option<bool> {
    let mut lemmas = Vec::new(alloc);
    let letters = text_of_field(row.field(1));
    let answer = match push_lemmas(alloc, &mut lemmas, letters) {
        Some(_) => are_told(alloc, names, &lemmas, row),
        None => None,
    };
    mem::forget(lemmas);
    answer
}

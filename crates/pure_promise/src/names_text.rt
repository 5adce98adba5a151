//! The names of lemmas.
ghost use Rattle.std.specs.Prelude.{◌≡◌, ◌++◌, IsTrue, OnOk, IfOk, map};
ghost use Rattle.pure_text.specs.Lists.{IsIn, Each};
ghost use Rattle.pure_theorem.specs.Sets.{IsLabelSet};
ghost use Rattle.pure_promise_fates.specs.Entries as fates;
ghost use Rattle.pure_promise.specs.Lemmas.{IsLabelAt};
ghost use Rattle.pure_promise.specs.Seen.{seen, reported};
ghost use Rattle.pure_promise.specs.RowText as spec;

use crate::entry::Entry;
use pure_print::push_text_of_name;
use pure_promise_fates::place_of;
use pure_term::{Label, Names};
use std::alloc::AllocError;

/// Whether the lemma at the place has this label.
fn is_there(entries: &[Entry], place: usize, label: Label) -> bool
    ensures { IsTrue result → IsLabelAt entries.now place label }
{
    if place < entries.len() {
        return entries[place].label == label;
    }
    false
}

/// The place of the lemma with this label, which may be the one that is guessed.
fn place_near(entries: &[Entry], label: Label, guess: usize) -> usize
    requires ascend { IsLabelSet (map fates.Entry.label (map reported entries.now)) }
    requires stands { IsIn label (map fates.Entry.label (map reported entries.now)) }
    ensures { IsLabelAt entries.now result label }
{
    if is_there(entries, guess, label) {
        return guess;
    }
    place_of(entries, label)
}

/// Appends the name of the lemma with this label, and tells its place, which may be the one that is guessed.
fn push_label(
    text: &mut Vec<u8>,
    names: &Names,
    entries: &[Entry],
    label: Label,
    guess: usize,
) -> Result<usize, AllocError>
    requires ascend { IsLabelSet (map fates.Entry.label (map reported entries.now)) }
    requires stands { IsIn label (map fates.Entry.label (map reported entries.now)) }
    ensures { IfOk result (λ place. text.new.items ≡ text.old.items ++ spec.label_text names.now (seen entries.now) label) }
{
    let place = place_near(entries, label, guess);
    push_text_of_name(text, names, entries[place].name)?;
    Ok(place)
}

/// Appends the names of the lemmas with these labels, each behind a comma. The first may be at the place that is guessed.
#[tactic(auto, unfolding(crate::specs::RowText::comma))]
fn push_more_labels(
    text: &mut Vec<u8>,
    names: &Names,
    entries: &[Entry],
    labels: &[Label],
    guess: usize,
) -> Result<(), AllocError>
    requires ascend { IsLabelSet (map fates.Entry.label (map reported entries.now)) }
    requires stand { Each (λ l. IsIn l (map fates.Entry.label (map reported entries.now))) labels.now }
    ensures { OnOk result (text.new.items ≡ text.old.items ++ spec.more_labels_text names.now (seen entries.now) labels.now) }
{
    let mut guess = guess;
    for label in labels {
        text.extend_from_slice(b", ")?;
        let place = push_label(text, names, entries, *label, guess)?;
        guess = place.saturating_add(1);
    }
    Ok(())
}

/// Appends the names of the lemmas with these labels, with a comma between each two.
pub(crate) fn push_labels(
    text: &mut Vec<u8>,
    names: &Names,
    entries: &[Entry],
    labels: &[Label],
) -> Result<(), AllocError>
    requires ascend { IsLabelSet (map fates.Entry.label (map reported entries.now)) }
    requires stand { Each (λ l. IsIn l (map fates.Entry.label (map reported entries.now))) labels.now }
    ensures { OnOk result (text.new.items ≡ text.old.items ++ spec.labels_text names.now (seen entries.now) labels.now) }
{
    if labels.len() == 0 {
        return Ok(());
    }
    let place = push_label(text, names, entries, labels[0], 0)?;
    push_more_labels(text, names, entries, &labels[1..], place.saturating_add(1))?;
    Ok(())
}

//! Lemmas by their labels.
ghost use Rattle.std.specs.Prelude.{◌≡◌, ◌<◌, length, map};
ghost use Rattle.pure_text.specs.Lists.{IsIn};
ghost use Rattle.pure_theorem.specs.Sets.{IsLabelSet};
ghost use Rattle.pure_promise_fates.specs.Entries.{Entry};
ghost use Rattle.pure_promise_fates.specs.Reach.{IsAt};

use crate::entry::Reported;
use pure_theorem::compare_labels;
use pure_typ::Label;
use std::cmp::Ordering;

/// The place of the lemma of this label, among some whose labels ascend.
pub fn place_of<E: Reported>(entries: &[E], label: Label) -> usize
    requires ascend { IsLabelSet (map Entry.label (map E.entry entries.now)) }
    requires stands { IsIn label (map Entry.label (map E.entry entries.now)) }
    ensures at { (e : Entry) × IsAt (map E.entry entries.now) result e × (e.label ≡ label) }
    ensures within { result < length entries.now }
{
    let (mut low, mut high) = (0, entries.len());
    while low < high {
        let middle = low + (high - low) / 2;
        match compare_labels(&entries[middle].label(), &label) {
            Ordering::Less => low = middle + 1,
            _ => high = middle,
        }
    }
    low
}

//! Lemmas that are joined.
ghost use Rattle.std.specs.Prelude.{◌≡◌, ◌↔◌, ◌<◌, ℕ, length, map, IfOk, IsTrue};
ghost use Rattle.pure_text.specs.Lists.{Each};
ghost use Rattle.pure_promise_fates.specs.Entries as fates;
ghost use Rattle.pure_promise_fates.specs.Entries.{AreEntries, IsFate};
ghost use Rattle.pure_promise_fates.specs.Reach.{IsAt, AreReaches};
ghost use Rattle.pure_promise.specs.Entries.{plain};
ghost use Rattle.pure_promise.specs.Seen.{seen, reported};
ghost use Rattle.pure_promise.specs.Joining.{AreJoined, MayJoin, IsSettled, IsTheorem};

use crate::entry::Entry;
use pure_promise_fates::{Reach, is_proved, reaches};
use pure_term::Label;
use std::alloc::{AllocError, Global};

/// Whether the lemma at the place is joined, by what each reaches.
fn is_joined(entries: &[Entry], reached: &[Reach], place: usize) -> bool
    requires entries { AreEntries (map reported entries.now) }
    requires reached { (width : ℕ) × AreReaches (map reported entries.now) width reached.now }
    requires count { length reached.now ≡ length entries.now }
    requires within { place < length entries.now }
    ensures { (e : fates.Entry) → IsAt (map reported entries.now) place e → IsTrue result ↔ IsFate (map reported entries.now) e.label fates.Proved }
{
    is_proved(entries, reached, place)
}

/// The labels that are joined.
fn joined(alloc: Global, entries: &[Entry]) -> Result<Vec<Label>, AllocError>
    requires { AreEntries (map reported entries.now) }
    ensures { IfOk result (λ labels. AreJoined (map reported entries.now) labels.items) }
{
    let reached = reaches(alloc, entries)?;
    let mut labels = Vec::new(alloc);
    for place in 0..entries.len() {
        if is_joined(entries, &reached, place) {
            labels.push(entries[place].label)?;
        }
    }
    Ok(labels)
}

/// The theorems of lemmas are derivable in their theories.
fn are_theorems(entries: &[Entry])
    ensures { Each IsTheorem entries.now }
{
    for entry in entries {
        entry.is_theorem();
    }
}

/// The labels of the lemmas that are proved and reach only proved ones, in order. What each of them states is derivable from the axioms of its theorem's theory alone.
pub fn join(alloc: Global, entries: &[Entry]) -> Result<Vec<Label>, AllocError>
    requires { MayJoin entries.now }
    ensures joined { IfOk result (λ labels. AreJoined (map plain (seen entries.now)) labels.items) }
    ensures settled { IfOk result (λ labels. Each (IsSettled entries.now) labels.items) }
{
    let labels = joined(alloc, entries)?;
    are_theorems(entries);
    Ok(labels)
}

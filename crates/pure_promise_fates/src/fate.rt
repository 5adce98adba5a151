//! The fates of lemmas, by what they reach.
ghost use Rattle.std.specs.Prelude.{◌≡◌, ◌↔◌, ◌<◌, ℕ, length, map, IfOk, IsTrue, if◌then◌else◌};
ghost use Rattle.pure_promise_fates.specs.Entries as tree;
ghost use Rattle.pure_promise_fates.specs.Entries.{Entry, AreEntries, IsFate};
ghost use Rattle.pure_promise_fates.specs.Reach.{IsAt, IsReachOf, AreReaches, AreHeldBefore};
ghost use Rattle.pure_promise_fates.specs.Seen.{seen_fate};
ghost use Rattle.pure_theorem.specs.Sets.{IsLabelSet};

use crate::entry::Reported;
use crate::reach::Reach;
use crate::rows::{holds, is_empty};
use pure_typ::Label;
use std::alloc::{AllocError, Global};

/// What a row says of a lemma. `Tainted` has the failed lemmas that it reaches, in order of their labels.
#[derive(Debug, Drop)]
pub enum Fate {
    Proved,
    Failed,
    Tainted { faults: Vec<Label> },
    Gone,
    Unsettled,
}

/// The labels of the lemmas that the row holds.
fn held<E: Reported>(alloc: Global, entries: &[E], row: &[u64]) -> Result<Vec<Label>, AllocError>
    requires { IsLabelSet (map Entry.label (map E.entry entries.now)) }
    ensures { IfOk result (λ faults. AreHeldBefore (map E.entry entries.now) row.now (length entries.now) faults.items) }
{
    let mut faults = Vec::new(alloc);
    for place in 0..entries.len() {
        if holds(row, place) {
            faults.push(entries[place].label())?;
        }
    }
    Ok(faults)
}

/// Whether the lemma at the place, which reaches this, is proved.
fn is_proved_by<E: Reported>(entries: &[E], place: usize, reach: &Reach) -> bool
    requires entries { AreEntries (map E.entry entries.now) }
    requires within { place < length entries.now }
    requires reach { (width : ℕ) × ((e : Entry) → IsAt (map E.entry entries.now) place e → IsReachOf (map E.entry entries.now) width e reach.now) }
    ensures { (e : Entry) → IsAt (map E.entry entries.now) place e → IsTrue result ↔ IsFate (map E.entry entries.now) e.label tree.Proved }
{
    match entries[place].rests() {
        Some(_) => !reach.cancelled() && is_empty(reach.faults()),
        None => false,
    }
}

/// The fate of the lemma at the place, which reaches this.
fn fate_by<E: Reported>(
    alloc: Global,
    entries: &[E],
    place: usize,
    reach: &Reach,
) -> Result<Fate, AllocError>
    requires entries { AreEntries (map E.entry entries.now) }
    requires within { place < length entries.now }
    requires reach { (width : ℕ) × ((e : Entry) → IsAt (map E.entry entries.now) place e → IsReachOf (map E.entry entries.now) width e reach.now) }
    ensures { IfOk result (λ fate. (e : Entry) → IsAt (map E.entry entries.now) place e → IsFate (map E.entry entries.now) e.label (seen_fate fate)) }
{
    match entries[place].rests() {
        Some(_) => {
            if is_empty(reach.faults()) {
                return Ok(unfailed(reach.cancelled()));
            }
            let faults = held(alloc, entries, reach.faults())?;
            Ok(Fate::Tainted { faults })
        }
        None => Ok(unshown(entries[place].is_fault())),
    }
}

/// The fate of a lemma that no proof shows.
fn unshown(is_fault: bool) -> Fate
    ensures { seen_fate result ≡ (if is_fault then tree.Failed else tree.Gone) }
{
    if is_fault { Fate::Failed } else { Fate::Gone }
}

/// The fate of a lemma that is shown and reaches no failed one.
fn unfailed(cancelled: bool) -> Fate
    ensures { seen_fate result ≡ (if cancelled then tree.Unsettled else tree.Proved) }
{
    if cancelled {
        Fate::Unsettled
    } else {
        Fate::Proved
    }
}

/// Whether the lemma at the place is proved and reaches only proved ones, by what each reaches. It takes no memory.
pub fn is_proved<E: Reported>(entries: &[E], reached: &[Reach], place: usize) -> bool
    requires entries { AreEntries (map E.entry entries.now) }
    requires reached { (width : ℕ) × AreReaches (map E.entry entries.now) width reached.now }
    requires count { length reached.now ≡ length entries.now }
    requires within { place < length entries.now }
    ensures { (e : Entry) → IsAt (map E.entry entries.now) place e → IsTrue result ↔ IsFate (map E.entry entries.now) e.label tree.Proved }
{
    is_proved_by(entries, place, &reached[place])
}

/// The fate of the lemma at the place, by what each reaches.
pub fn fate_of<E: Reported>(
    alloc: Global,
    entries: &[E],
    reached: &[Reach],
    place: usize,
) -> Result<Fate, AllocError>
    requires entries { AreEntries (map E.entry entries.now) }
    requires reached { (width : ℕ) × AreReaches (map E.entry entries.now) width reached.now }
    requires count { length reached.now ≡ length entries.now }
    requires within { place < length entries.now }
    ensures { IfOk result (λ fate. (e : Entry) → IsAt (map E.entry entries.now) place e → IsFate (map E.entry entries.now) e.label (seen_fate fate)) }
{
    let fate = fate_by(alloc, entries, place, &reached[place])?;
    Ok(fate)
}

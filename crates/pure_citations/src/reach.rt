//! What lemmas reach: one walk back through the lemmas in order of their labels.
ghost use Rattle.std.specs.Prelude.{◌≡◌, ◌↔◌, ◌⊎◌, ◌<◌, ℕ, length, map, OnOk};
ghost use Rattle.pure_text.specs.Lists.{IsIn, Each};
ghost use Rattle.pure_theorem.specs.Sets.{IsLabelSet};
ghost use Rattle.pure_order_tables.specs.Rows.{Holds};
ghost use Rattle.pure_promise_fates.specs.Entries.{Entry, AreEntries};
ghost use Rattle.pure_promise_fates.specs.Reach.{IsAt};
ghost use Rattle.pure_citations.specs.Reached.{IsFrom, IsRestAt, IsGrown};

use crate::rows::{holds, put};
use pure_promise_fates::{Reported, place_of};
use pure_typ::Label;
use std::alloc::AllocError;

/// Puts in the places of the promises.
fn put_rests<E: Reported>(
    entries: &[E],
    rests: &[Label],
    row: &mut Vec<u64>,
) -> Result<(), AllocError>
    requires ascend { IsLabelSet (map Entry.label (map E.entry entries.now)) }
    requires stand { Each (λ k. IsIn k (map Entry.label (map E.entry entries.now))) rests.now }
    ensures { OnOk result ((p : ℕ) (e : Entry) → IsAt (map E.entry entries.now) p e → Holds row.new.items p ↔ (Holds row.old.items p ⊎ IsIn e.label rests.now)) }
{
    for label in rests {
        let place = place_of(entries, *label);
        put(row, place)?;
    }
    Ok(())
}

/// Puts in the places of the promises on which the proof of the lemma at the place rests.
fn put_of<E: Reported>(entries: &[E], place: usize, row: &mut Vec<u64>) -> Result<(), AllocError>
    requires entries { AreEntries (map E.entry entries.now) }
    requires within { place < length entries.now }
    ensures { OnOk result ((p : ℕ) (e : Entry) → IsAt (map E.entry entries.now) p e → Holds row.new.items p ↔ (Holds row.old.items p ⊎ IsRestAt (map E.entry entries.now) place e.label)) }
{
    match entries[place].rests() {
        Some(rests) => {
            put_rests(entries, rests, row)?;
            Ok(())
        }
        None => Ok(()),
    }
}

/// The same where the row holds the place.
#[tactic(auto, using(crate::proofs::ReachedLaws::grown_held, crate::proofs::ReachedLaws::grown_not))]
fn put_next<E: Reported>(entries: &[E], place: usize, row: &mut Vec<u64>) -> Result<(), AllocError>
    requires entries { AreEntries (map E.entry entries.now) }
    requires within { place < length entries.now }
    ensures { OnOk result (IsGrown (map E.entry entries.now) place row.old.items row.new.items) }
{
    if holds(row, place) {
        put_of(entries, place, row)?;
        return Ok(());
    }
    Ok(())
}

/// Puts in the places of all lemmas that those reach whose places the row holds.
pub fn put_reached<E: Reported>(entries: &[E], row: &mut Vec<u64>) -> Result<(), AllocError>
    requires { AreEntries (map E.entry entries.now) }
    ensures { OnOk result ((p : ℕ) (e : Entry) → IsAt (map E.entry entries.now) p e → Holds row.new.items p ↔ IsFrom (map E.entry entries.now) row.old.items e.label) }
{
    let count = entries.len();
    for back in 0..count {
        put_next(entries, count - 1 - back, row)?;
    }
    Ok(())
}

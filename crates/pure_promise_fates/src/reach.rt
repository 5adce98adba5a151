//! What lemmas reach: one walk through the lemmas in order of their labels.
ghost use Rattle.std.specs.Prelude.{◌≡◌, ◌<◌, [], ◌∷◌, ◌++◌, ℕ, List, length, map, IfOk};
ghost use Rattle.pure_text.specs.Lists.{Each};
ghost use Rattle.pure_definitions.specs.Names as tree;
ghost use Rattle.pure_promise_fates.specs.Entries.{Entry, AreEntries};
ghost use Rattle.pure_promise_fates.specs.Reach.{IsAt, IsReach, IsReachOf, IsWide, AreReaches, IsKnown};

use crate::entry::Reported;
use crate::find::place_of;
use crate::rows::{put_place, put_row};
use pure_typ::Label;
use std::alloc::{AllocError, Global};
use std::marker::Model;

/// What a lemma reaches, or some labels: the places of failed lemmas as bits, and whether there is a cancelled one.
#[derive(Debug, Drop)]
pub struct Reach {
    faults: Vec<u64>,
    cancelled: bool,
}

impl Model for Reach {
    ghost use Rattle.pure_promise_fates.specs.Reach as seen;

    ghost Value = { seen.Reach };

    ghost view = { λ r. record { row = r.faults.items; mark = r.cancelled } };
}

impl Reach {
    /// The places of failed lemmas that are reached.
    pub(crate) fn faults(&self) -> &[u64]
        ensures { result.now ≡ self.now.row }
    {
        &self.faults
    }

    /// Whether a cancelled lemma is reached.
    pub(crate) fn cancelled(&self) -> bool
        ensures { result ≡ self.now.mark }
    {
        self.cancelled
    }
}

/// How many words the places of failed lemmas take.
fn width_of<E: Reported>(entries: &[E]) -> usize
    ensures { IsWide (map E.entry entries.now) result }
{
    let mut width = 0;
    for place in 0..entries.len() {
        if entries[place].is_fault() {
            width = place / 64 + 1;
        }
    }
    width
}

/// Puts in the lemma at the place, and what it reaches.
fn put<E: Reported>(entries: &[E], reached: &[Reach], place: usize, reach: &mut Reach)
    requires reached { AreReaches (map E.entry entries.now) (length reach.old.row) reached.now }
    requires within { place < length entries.now }
    requires known { place < length reached.now }
    ensures more { (ks : List tree.Label) (e : Entry) → IsAt (map E.entry entries.now) place e → IsReach (map E.entry entries.now) ks reach.old → IsReach (map E.entry entries.now) (ks ++ e.label ∷ []) reach.new }
    ensures count { length reach.new.row ≡ length reach.old.row }
{
    match entries[place].rests() {
        Some(_) => {
            let other = &reached[place];
            put_row(&mut reach.faults, &other.faults);
            reach.cancelled |= other.cancelled;
        }
        None => {
            if entries[place].is_fault() {
                put_place(&mut reach.faults, place);
            } else {
                reach.cancelled = true;
            }
        }
    }
}

/// What the promises reach, themselves among it.
fn reach_of<E: Reported>(
    alloc: Global,
    entries: &[E],
    reached: &[Reach],
    width: usize,
    rests: &[Label],
) -> Result<Reach, AllocError>
    requires reached { AreReaches (map E.entry entries.now) width reached.now }
    requires known { Each (IsKnown (map E.entry entries.now) (length reached.now)) rests.now }
    ensures { IfOk result (λ r. IsReach (map E.entry entries.now) rests.now r × (length r.row ≡ width)) }
{
    let mut reach = Reach {
        faults: Vec::from_elem(alloc, 0, width)?,
        cancelled: false,
    };
    for label in rests {
        let place = place_of(entries, *label);
        put(entries, reached, place, &mut reach);
    }
    Ok(reach)
}

/// What the lemma at the place reaches; nothing where no proof shows it.
fn reach_at<E: Reported>(
    alloc: Global,
    entries: &[E],
    reached: &[Reach],
    width: usize,
    place: usize,
) -> Result<Reach, AllocError>
    requires reached { AreReaches (map E.entry entries.now) width reached.now }
    requires entries { AreEntries (map E.entry entries.now) }
    requires next { length reached.now ≡ place }
    requires within { place < length entries.now }
    ensures { IfOk result (λ r. (e : Entry) → IsAt (map E.entry entries.now) place e → IsReachOf (map E.entry entries.now) width e r) }
{
    match entries[place].rests() {
        Some(rests) => {
            let reach = reach_of(alloc, entries, reached, width, rests)?;
            Ok(reach)
        }
        None => Ok(Reach {
            faults: Vec::new(alloc),
            cancelled: false,
        }),
    }
}

/// What each lemma reaches that is shown, in their order.
pub fn reaches<E: Reported>(alloc: Global, entries: &[E]) -> Result<Vec<Reach>, AllocError>
    requires { AreEntries (map E.entry entries.now) }
    ensures each { IfOk result (λ rs. (width : ℕ) × AreReaches (map E.entry entries.now) width rs.items) }
    ensures count { IfOk result (λ rs. length rs.items ≡ length entries.now) }
{
    let width = width_of(entries);
    let mut reached = Vec::with_capacity(alloc, entries.len())?;
    for place in 0..entries.len() {
        let reach = reach_at(alloc, entries, &reached, width, place)?;
        reached.push(reach)?;
    }
    Ok(reached)
}

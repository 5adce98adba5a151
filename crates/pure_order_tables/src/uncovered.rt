//! The classes at which the arities of some tables don't cover an arity.
ghost use Rattle.std.specs.Prelude.{◌≡◌, ◌↔◌, IsTrue, IfOk, MatchBool};
ghost use Rattle.pure_order_tables.specs.ArityView.{arity_of};
ghost use Rattle.pure_order_tables.specs.Classes.{IsDeclared};
ghost use Rattle.pure_order_tables.specs.Kept.{AreKeptEntries, IsKeptEntry};
ghost use Rattle.pure_order_tables.specs.Uncovered.{Extends, IsAbovePlace, IsBelowPlace, IsUncovered, IsWithinArities};

use crate::rows::{empty_row, end_below, holds_only, put_place, put_row};
use crate::tables::{ArityEntry, Tables};
use pure_shared_maps::GrownList;
use std::alloc::{AllocError, Global};

/// Whether the places are the same.
fn is_same(first: Option<usize>, second: Option<usize>) -> bool
    ensures { IsTrue result ↔ (first ≡ second) }
{
    match first {
        None => match second {
            None => true,
            Some(_) => false,
        },
        Some(place) => match second {
            None => false,
            Some(other) => place == other,
        },
    }
}

impl Tables {
    /// Whether the arity's domains are below those of the other tables' arity at the place.
    fn is_below_at(
        &self,
        arity: &ArityEntry,
        entries: &GrownList<ArityEntry>,
        other: &Tables,
        place: Option<usize>,
    ) -> bool
        requires within { IsWithinArities other.now place }
        requires kept { IsKeptEntry self.now.classes arity.now }
        requires entries { AreKeptEntries self.now.classes other.now entries.now }
        ensures { IsTrue result ↔ IsBelowPlace self.now other.now (arity_of arity.now) place }
    {
        match place {
            None => false,
            Some(place) => {
                let entry = entries.get(place);
                self.arity_below(arity, entry)
            }
        }
    }

    /// The same, where it is known that they aren't below those at another place.
    fn is_below_new(
        &self,
        arity: &ArityEntry,
        entries: &GrownList<ArityEntry>,
        other: &Tables,
        place: Option<usize>,
        bare: Option<usize>,
    ) -> bool
        requires within { IsWithinArities other.now place }
        requires kept { IsKeptEntry self.now.classes arity.now }
        requires entries { AreKeptEntries self.now.classes other.now entries.now }
        requires bare { ¬ IsBelowPlace self.now other.now (arity_of arity.now) bare }
        ensures { MatchBool result (IsBelowPlace self.now other.now (arity_of arity.now) place) (¬ IsBelowPlace self.now other.now (arity_of arity.now) place) }
    {
        !is_same(place, bare) && self.is_below_at(arity, entries, other, place)
    }

    /// Whether the arity's domains are above those of the arity at the place, if it is one.
    pub(crate) fn is_above_at(&self, arity: &ArityEntry, place: Option<usize>) -> bool
        requires within { IsWithinArities self.now place }
        requires kept { IsKeptEntry self.now.classes arity.now }
        ensures { IsTrue result ↔ IsAbovePlace self.now (arity_of arity.now) place }
    {
        match place {
            None => true,
            Some(place) => {
                let entry = self.arities().get(place);
                self.arity_below(entry, arity)
            }
        }
    }

    /// The same, where it is known that they are above those at another place.
    pub(crate) fn is_above_new(
        &self,
        arity: &ArityEntry,
        place: Option<usize>,
        top: Option<usize>,
    ) -> bool
        requires within { IsWithinArities self.now place }
        requires kept { IsKeptEntry self.now.classes arity.now }
        requires top { IsAbovePlace self.now (arity_of arity.now) top }
        ensures { MatchBool result (IsAbovePlace self.now (arity_of arity.now) place) (¬ IsAbovePlace self.now (arity_of arity.now) place) }
    {
        is_same(place, top) || self.is_above_at(arity, place)
    }

    /// The numbers of the classes above the arity's at which the other tables, whose arities these are, don't cover it. Where they cover it they do so at all classes above, which aren't looked at.
    pub(crate) fn uncovered(
        &self,
        alloc: Global,
        arity: &ArityEntry,
        entries: &GrownList<ArityEntry>,
        other: &Tables,
    ) -> Result<Vec<u64>, AllocError>
        requires extends { Extends self.now other.now }
        requires kept { IsKeptEntry self.now.classes arity.now }
        requires entries { AreKeptEntries self.now.classes other.now entries.now }
        requires declared { IsDeclared self.now.classes arity.now.class }
        ensures { IfOk result (λ row. IsUncovered self.now other.now (arity_of arity.now) row.items) }
    {
        other.order_is_decided();
        let count = self.class_count();
        let up = self.row_of(self.number_of(arity.class));
        let mut row = empty_row(alloc, count / 64 + 1)?;
        let mut covered = empty_row(alloc, count / 64 + 1)?;
        let mut bare = None;
        let mut end = count;
        while end > 0 {
            let number = end - 1;
            if holds_only(up, covered.as_slice(), number) {
                let place = other.place(arity.con, self.class_name(number));
                if self.is_below_new(arity, entries, other, place, bare) {
                    put_row(&mut covered, self.row_of(number));
                } else {
                    bare = place;
                    put_place(&mut row, number);
                }
            }
            end = end_below(up, covered.as_slice(), number);
        }
        Ok(row)
    }
}

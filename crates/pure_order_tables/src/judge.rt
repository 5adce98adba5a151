//! The judgement of a new arity: where it would be the greatest, or the least class that it is in conflict with.
ghost use Rattle.std.specs.Prelude.{◌≡◌, ◌↔◌, ◌<◌, ℕ, None, length, IsTrue, IfOk, IfErr, OnOk, OnErr, IfSome, MatchBool, MatchOption, MatchResult};
ghost use Rattle.std.specs.Bool.{OnTrue};
ghost use Rattle.pure_text.specs.Lists.{IsIn};
ghost use Rattle.pure_definitions.specs.Types.Order.{Arity, AreDomainsBelow, IsClassBelow, IsCoregular};
ghost use Rattle.pure_order_tables.specs.Arities.{IsArityBelow, IsKnown, with_arity};
ghost use Rattle.pure_order_tables.specs.ClassTable.{name_at};
ghost use Rattle.pure_order_tables.specs.Rows.{Holds};
ghost use Rattle.pure_order_tables.specs.Kept.{IsKeptEntry};
ghost use Rattle.pure_order_tables.specs.Classes.{IsDeclared};
ghost use Rattle.pure_order_tables.specs.ArityView.{arity_of};
ghost use Rattle.pure_order_tables.specs.Checks.{AreGreater, FailsAt, FindsAt, IsLeastInConflict, PassesAt};
ghost use Rattle.pure_order_tables.specs.Uncovered.{AreElsewhere, Clears, IsBelowRow, IsUncovered};

use crate::names::lesser;
use crate::rows::{holds, meet};
use crate::tables::{ArityEntry, Tables};
use pure_typ::Name;
use std::alloc::{AllocError, Global};

/// Whether there is no place, and was none before.
fn still_none(none: bool, place: Option<usize>) -> bool
    ensures { IsTrue result → IsTrue none × (place ≡ None) }
{
    match place {
        None => none,
        Some(_) => false,
    }
}

impl Tables {
    /// The classes at which a new arity, which isn't covered at the classes in the row, would be the greatest.
    pub(crate) fn greater(
        &self,
        alloc: Global,
        arity: &ArityEntry,
        uncovered: &[u64],
    ) -> Result<Vec<Name>, AllocError>
        requires declared { IsDeclared self.now.classes arity.now.class }
        requires kept { IsKeptEntry self.now.classes arity.now }
        requires uncovered { IsUncovered self.now self.now (arity_of arity.now) uncovered.now }
        ensures { IfOk result (λ greater. AreGreater self.now (arity_of arity.now) greater.items) }
    {
        self.are_in_order();
        self.order_is_decided();
        self.have_candidates();
        let mut greater = Vec::new(alloc);
        let mut top = None;
        for number in 0..self.class_count() {
            if holds(uncovered, number) {
                let class = self.class_name(number);
                let place = self.place(arity.con, class);
                if self.is_above_new(arity, place, top) {
                    top = place;
                    greater.push(class)?;
                }
            }
        }
        Ok(greater)
    }

    /// Whether the constructor's arities are for classes whose numbers the row doesn't hold.
    fn are_elsewhere(&self, con: Name, row: &[u64]) -> bool
        ensures { OnTrue result (AreElsewhere self.now con row.now self.now.arities) }
    {
        let arities = self.arities();
        for i in 0..arities.len() {
            let arity = arities.get(i);
            if arity.con == con && holds(row, self.number_of(arity.class)) {
                return false;
            }
        }
        true
    }

    /// The same, where it may be known that there is no arity of the constructor for a class below one in the row.
    fn is_elsewhere(&self, con: Name, row: &[u64], bare: bool) -> bool
        requires { IsTrue bare → (n : ℕ) → n < length self.now.classes → Holds row.now n → (q : Arity) → ¬ IsArityBelow self.now con (name_at self.now.classes n) q }
        ensures { OnTrue result (AreElsewhere self.now con row.now self.now.arities) }
    {
        self.are_in_order();
        if bare {
            return true;
        }
        self.are_elsewhere(con, row)
    }

    /// The classes at which the new arity would be the greatest, if it is above all others where it isn't covered.
    fn fits(
        &self,
        alloc: Global,
        arity: &ArityEntry,
        uncovered: &[u64],
    ) -> Result<Option<Vec<Name>>, AllocError>
        requires coregular { IsCoregular self.now }
        requires declared { IsDeclared self.now.classes arity.now.class }
        requires kept { IsKeptEntry self.now.classes arity.now }
        requires uncovered { IsUncovered self.now self.now (arity_of arity.now) uncovered.now }
        ensures { IfOk result (λ found. IfSome found (λ greater. AreGreater self.now (arity_of arity.now) greater.items × IsCoregular (with_arity self.now (arity_of arity.now)))) }
    {
        self.are_in_order();
        self.order_is_decided();
        self.have_candidates();
        let mut top = self.place(arity.con, arity.class);
        if !self.is_above_at(arity, top) {
            return Ok(None);
        }
        let mut bare = true;
        let mut greater = Vec::new(alloc);
        for number in 0..self.class_count() {
            if holds(uncovered, number) {
                let class = self.class_name(number);
                let place = self.place(arity.con, class);
                if !self.is_above_new(arity, place, top) {
                    return Ok(None);
                }
                top = place;
                bare = still_none(bare, place);
                greater.push(class)?;
            }
        }
        if !self.is_elsewhere(arity.con, uncovered, bare) {
            return Ok(None);
        }
        Ok(Some(greater))
    }

    /// Whether the class is below one whose number the row holds.
    fn is_below_row(&self, class: Name, row: &[u64]) -> bool
        requires { IsDeclared self.now.classes class }
        ensures { IsTrue result ↔ IsBelowRow self.now row.now class }
    {
        meet(row, self.row_of(self.number_of(class)))
    }

    /// Whether the first part holds of two arities, one way.
    fn falls(&self, first: &ArityEntry, second: &ArityEntry) -> bool
        requires first { IsKeptEntry self.now.classes first.now }
        requires second { IsKeptEntry self.now.classes second.now }
        ensures { MatchBool result (IsClassBelow self.now first.now.class second.now.class → AreDomainsBelow self.now (arity_of first.now) (arity_of second.now)) (¬ (IsClassBelow self.now first.now.class second.now.class → AreDomainsBelow self.now (arity_of first.now) (arity_of second.now))) }
    {
        !self.below(first.class, second.class) || self.arity_below(first, second)
    }

    /// Whether a declared arity of the constructor is clear of the new one, which isn't covered at the classes in the row.
    fn clears(&self, first: &ArityEntry, second: &ArityEntry, uncovered: &[u64]) -> bool
        requires declared { IsDeclared self.now.classes second.now.class }
        requires first { IsKeptEntry self.now.classes first.now }
        requires second { IsKeptEntry self.now.classes second.now }
        ensures { MatchBool result (Clears self.now (arity_of first.now) uncovered.now (arity_of second.now)) (¬ Clears self.now (arity_of first.now) uncovered.now (arity_of second.now)) }
    {
        self.falls(first, second)
            && self.falls(second, first)
            && (!self.is_below_row(second.class, uncovered) || self.arity_below(second, first))
    }

    /// Whether the second arity is of the first one's constructor and isn't clear of it.
    fn collides(&self, first: &ArityEntry, second: &ArityEntry, uncovered: &[u64]) -> bool
        requires declared { IsDeclared self.now.classes second.now.class }
        requires first { IsKeptEntry self.now.classes first.now }
        requires second { IsKeptEntry self.now.classes second.now }
        ensures { MatchBool result (FailsAt (Clears self.now (arity_of first.now) uncovered.now) first.now.con (arity_of second.now)) (PassesAt (Clears self.now (arity_of first.now) uncovered.now) first.now.con (arity_of second.now)) }
    {
        second.con == first.con && !self.clears(first, second, uncovered)
    }

    /// The least class of a declared arity that isn't clear of the new one.
    fn least_colliding(&self, arity: &ArityEntry, uncovered: &[u64]) -> Option<Name>
        requires { IsKeptEntry self.now.classes arity.now }
        ensures { FindsAt (Clears self.now (arity_of arity.now) uncovered.now) arity.now.con self.now.arities result }
    {
        let arities = self.arities();
        let mut least = None;
        for i in 0..arities.len() {
            let other = arities.get(i);
            if self.collides(arity, other, uncovered) {
                least = Some(lesser(least, other.class));
            }
        }
        least
    }

    /// The classes above a declared one.
    fn all_above(&self, alloc: Global, class: Name) -> Result<Vec<Name>, AllocError>
        requires { IsDeclared self.now.classes class }
        ensures { IfOk result (λ names. (d : ℕ) → IsIn d names.items ↔ IsClassBelow self.now class d) }
    {
        let Some(names) = self.above(class) else {
            return Ok(Vec::new(alloc));
        };
        Vec::from_slice(alloc, names)
    }

    /// The classes at which a new arity would be the greatest; or else the least class of a declared arity in conflict with it.
    fn judge(
        &self,
        alloc: Global,
        arity: &ArityEntry,
    ) -> Result<Result<Vec<Name>, Name>, AllocError>
        requires coregular { IsCoregular self.now }
        requires declared { IsDeclared self.now.classes arity.now.class }
        requires kept { IsKeptEntry self.now.classes arity.now }
        ensures { IfOk result (λ judged. MatchResult judged (λ greater. AreGreater self.now (arity_of arity.now) greater.items × IsCoregular (with_arity self.now (arity_of arity.now))) (IsLeastInConflict (with_arity self.now (arity_of arity.now)) (arity_of arity.now))) }
    {
        self.are_in_order();
        self.order_is_decided();
        if self.is_bare(arity.con) {
            return Ok(Ok(self.all_above(alloc, arity.class)?));
        }
        let uncovered = self.uncovered(alloc, arity, self.arities(), self)?;
        if let Some(greater) = self.fits(alloc, arity, uncovered.as_slice())? {
            return Ok(Ok(greater));
        }
        match self.least_colliding(arity, uncovered.as_slice()) {
            Some(class) => Ok(Err(class)),
            None => Ok(Ok(self.greater(alloc, arity, uncovered.as_slice())?)),
        }
    }

    /// Declares an arity, or answers the least class of a declared arity in conflict with it.
    pub fn declare(
        &mut self,
        alloc: Global,
        arity: &ArityEntry,
    ) -> Result<Result<(), Name>, AllocError>
        requires coregular { IsCoregular self.old }
        requires known { IsKnown self.old.classes (arity_of arity.now) }
        ensures declared { IfOk result (λ declared. OnOk declared (self.new ≡ with_arity self.old (arity_of arity.now))) }
        ensures coregular { IfOk result (λ declared. OnOk declared (IsCoregular (with_arity self.old (arity_of arity.now)))) }
        ensures conflict { IfOk result (λ declared. IfErr declared (IsLeastInConflict (with_arity self.old (arity_of arity.now)) (arity_of arity.now))) }
        ensures refused { IfOk result (λ declared. OnErr declared (self.new ≡ self.old)) }
        ensures err { OnErr result (self.new ≡ self.old) }
    {
        let kept = self.kept(alloc, arity)?;
        match self.judge(alloc, &kept)? {
            Ok(greater) => self.push_arity(alloc, kept, greater.as_slice())?,
            Err(class) => return Ok(Err(class)),
        }
        Ok(Ok(()))
    }
}

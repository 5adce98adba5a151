//! Two tables united.
ghost use Rattle.std.specs.Prelude.{◌≡◌, ◌↔◌, [], IsTrue, OnOk, IfOk, IfErr};
ghost use Rattle.pure_text.specs.Lists.{IsIn, Each};
ghost use Rattle.pure_definitions.specs.Types.Order.{Algebra, IsCoregular};
ghost use Rattle.pure_order_tables.specs.Checks.{IsLeastConflict};
ghost use Rattle.pure_order_tables.specs.ArityView.{arity_of, arities_of};
ghost use Rattle.pure_order_tables.specs.ClassView.{classes_of};
ghost use Rattle.pure_order_tables.specs.Classes.{Agree, Follows};
ghost use Rattle.pure_order_tables.specs.Arities.{IsKnown, IsUnion, IsUnionInOrder};
ghost use Rattle.pure_order_tables.specs.Others.{AreWithOthers};
ghost use Rattle.pure_order_tables.specs.Kept.{IsKeptEntry};

use crate::classes::ClassEntry;
use crate::tables::{ArityEntry, Tables};
use pure_shared_maps::GrownList;
use pure_typ::{Name, Sort};
use std::alloc::{AllocError, Global};

/// Whether the sorts are the same.
fn are_same_sorts(first: &[Sort], second: &[Sort]) -> bool
    ensures { IsTrue result ↔ (first.now ≡ second.now) }
{
    first == second
}

/// Whether the arities are the same.
fn is_same_arity(first: &ArityEntry, second: &ArityEntry) -> bool
    ensures { IsTrue result ↔ (arity_of first.now ≡ arity_of second.now) }
{
    first.con == second.con
        && first.class == second.class
        && are_same_sorts(first.sorts(), second.sorts())
}

impl Tables {
    /// Whether the arity is declared.
    pub(crate) fn has_same(&self, arity: &ArityEntry) -> bool
        ensures { IsTrue result ↔ IsIn (arity_of arity.now) self.now.arities }
    {
        let arities = self.arities();
        for i in 0..arities.len() {
            let other = arities.get(i);
            if is_same_arity(arity, other) {
                return true;
            }
        }
        false
    }

    /// The tables with those of the classes that aren't declared yet.
    fn with_classes(
        self,
        alloc: Global,
        entries: &GrownList<ClassEntry>,
    ) -> Result<Tables, AllocError>
        requires ordered { Follows [] (classes_of entries.now) }
        requires agree { Agree self.classes (classes_of entries.now) }
        ensures classes { IfOk result (λ more. AreWithOthers self.classes (classes_of entries.now) more.classes) }
        ensures arities { IfOk result (λ more. more.arities ≡ self.arities) }
    {
        let mut tables = self;
        for i in 0..entries.len() {
            let entry = entries.get(i);
            if !tables.is_declared(entry.name) {
                tables = tables.with_class(alloc, entry.name, entry.above.as_slice())?;
            }
        }
        Ok(tables)
    }

    /// Declares those of the arities that the first tables, which had these arities, haven't.
    fn push_arities(
        &mut self,
        alloc: Global,
        first: &Tables,
        arities: &GrownList<ArityEntry>,
    ) -> Result<(), AllocError>
        requires known { Each (IsKnown self.old.classes) (arities_of arities.now) }
        requires kept { Each (IsKeptEntry self.old.classes) arities.now }
        requires same { self.old.arities ≡ first.now.arities }
        ensures classes { OnOk result (self.new.classes ≡ self.old.classes) }
        ensures arities { OnOk result (AreWithOthers first.now.arities (arities_of arities.now) self.new.arities) }
    {
        for i in 0..arities.len() {
            let arity = arities.get(i);
            if !first.has_same(arity) {
                let uncovered = self.uncovered(alloc, arity, self.arities(), self)?;
                let greater = self.greater(alloc, arity, uncovered.as_slice())?;
                self.push_arity(alloc, arity.share()?, greater.as_slice())?;
            }
        }
        Ok(())
    }

    /// The classes and arities of these tables, and then those of the others that these haven't; or, where they aren't coregular, the least constructor and the least two classes of arities in conflict.
    pub fn united(
        &self,
        alloc: Global,
        other: &Tables,
    ) -> Result<Result<Tables, (Name, Name, Name)>, AllocError>
        requires agree { Agree self.now.classes other.now.classes }
        requires coregular { IsCoregular self.now }
        requires other_coregular { IsCoregular other.now }
        ensures in_order { IfOk result (λ united. IfOk united (IsUnionInOrder self.now other.now)) }
        ensures union { IfOk result (λ united. IfOk united (IsUnion self.now other.now)) }
        ensures coregular { IfOk result (λ united. IfOk united IsCoregular) }
        ensures conflict { IfOk result (λ united. IfErr united (λ f. (U : Algebra) × IsUnion self.now other.now U × IsLeastConflict U f.0 f.1 f.2)) }
    {
        self.are_in_order();
        other.are_in_order();
        let own = self.copy(alloc)?;
        let mut tables = own.with_classes(alloc, other.class_entries())?;
        tables.are_in_order();
        let theirs = tables.all_kept(alloc, other)?;
        if let Some(found) = tables.least_conflict(alloc, self, other, &theirs)? {
            return Ok(Err(found));
        }
        tables.push_arities(alloc, self, &theirs)?;
        Ok(Ok(tables))
    }
}

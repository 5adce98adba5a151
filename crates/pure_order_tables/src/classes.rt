//! The declared classes, and for each those above it.
ghost use Rattle.std.specs.Prelude.{◌≡◌, ◌↔◌, ◌⊎◌, ◌<◌, ℕ, List, [], ◌∷◌, ◌++◌, IsTrue, OnOk, OnErr, IfOk, MatchOption, length};
ghost use Rattle.std.specs.List.Sorted.{IsStrictlyIncreasing};
ghost use Rattle.pure_text.specs.Lists.{IsIn, Each, AnyOf};
ghost use Rattle.pure_definitions.specs.Types.Order.{Class, IsClassBelow};
ghost use Rattle.pure_order_tables.specs.Classes.{Agree, Follows, IsAntisymmetric, IsDeclared, IsSameIfNamed, of_classes};
ghost use Rattle.pure_order_tables.specs.Checks.{IsDecided};
ghost use Rattle.pure_order_tables.specs.ClassTable.{AreAllAbove, HasNumbers, IsEntry, IsNewEntry, IsNewRow, IsNumber, IsRow, IsOtherNamed, NamedBefore, name_at};
ghost use Rattle.pure_order_tables.specs.ClassView.{class_of, classes_of};
ghost use Rattle.pure_order_tables.specs.Rows.{Holds};

use crate::names::put;
use crate::rows::{empty_row, end_below, holds, holds_only, put_place, put_row};
use pure_shared_maps::{GrownList, GrownMap};
use pure_typ::Name;
use std::alloc::{AllocError, Global};
use std::marker::Model;
use std::sync::Arc;

/// A declared class, and the classes declared to be above it; all classes above it, itself among them, ascending; and the numbers of these.
#[derive(Drop)]
pub struct ClassEntry {
    pub(crate) name: Name,
    pub(crate) above: Vec<Name>,
    up: Vec<Name>,
    row: Vec<u64>,
}

/// The declared classes, and for each its number, which is its place. Other tables share both.
#[derive(Drop)]
pub struct ClassTable {
    entries: GrownList<ClassEntry>,
    numbers: GrownMap<usize>,
}

/// Whether the entries are the same, if they are of one class.
fn are_same_if_named(first: &ClassEntry, second: &ClassEntry) -> bool
    ensures { IsTrue result ↔ IsSameIfNamed (class_of first.now) (class_of second.now) }
{
    first.name != second.name || first.above.as_slice() == second.above.as_slice()
}

impl Model for ClassTable {
    ghost use Rattle.std.specs.Prelude.{List};
    ghost use Rattle.pure_definitions.specs.Types.Order.{Class};

    ghost Value = { List Class };

    ghost use Rattle.pure_order_tables.specs.ClassView.{classes_of};
    ghost use Rattle.pure_order_tables.specs.ClassTable.{IsClassTable};

    ghost view = { λ t. classes_of t.entries };

    ghost invariant = { λ t. IsClassTable t.entries t.numbers };
}

impl ClassTable {
    /// No classes.
    pub fn empty(alloc: Global) -> ClassTable
        ensures { result ≡ [] }
    {
        ClassTable {
            entries: GrownList::empty(alloc),
            numbers: GrownMap::empty(alloc),
        }
    }

    /// A copy, which shares the entries.
    pub(crate) fn copy(&self, alloc: Global) -> Result<ClassTable, AllocError>
        ensures { IfOk result (λ copy. copy ≡ self.now) }
    {
        let entries = self.entries.share(alloc)?;
        let numbers = self.numbers.share(alloc)?;
        Ok(ClassTable { entries, numbers })
    }

    /// The count of classes.
    pub(crate) fn count(&self) -> usize
        ensures { result ≡ length self.now }
    {
        self.entries.len()
    }

    /// The number of a declared class.
    pub(crate) fn number(&self, class: Name) -> Option<usize>
        ensures { MatchOption result (¬ IsDeclared self.now class) (IsNumber self.now class) }
    {
        match self.numbers.get(class.0) {
            None => None,
            Some(number) => Some(*number),
        }
    }

    /// The entry with a number.
    fn numbered(&self, number: usize) -> &ClassEntry
        requires { number < length self.now }
        ensures named { IsNumber self.now result.now.name number }
        ensures entry { IsEntry self.now result.now }
    {
        self.entries.get(number)
    }

    /// The class with a number.
    pub(crate) fn name(&self, number: usize) -> Name
        requires { number < length self.now }
        ensures { result ≡ name_at self.now number }
    {
        self.numbered(number).name
    }

    /// The numbers of the classes above the class with a number.
    pub(crate) fn row_of(&self, number: usize) -> &[u64]
        requires { number < length self.now }
        ensures { IsRow self.now (name_at self.now number) result.now }
    {
        self.numbered(number).row.as_slice()
    }

    /// The entry of a declared class.
    fn entry(&self, class: Name) -> Option<&ClassEntry>
        ensures { MatchOption result (¬ IsDeclared self.now class) (λ e. (e.now.name ≡ class) × IsEntry self.now e.now) }
    {
        match self.number(class) {
            None => None,
            Some(number) => Some(self.numbered(number)),
        }
    }

    /// Whether the class is declared.
    pub fn is_declared(&self, class: Name) -> bool
        ensures { IsTrue result ↔ IsDeclared self.now class }
    {
        match self.number(class) {
            None => false,
            Some(_) => true,
        }
    }

    /// The classes above a declared class, itself among them.
    pub fn above(&self, class: Name) -> Option<&[Name]>
        ensures { MatchOption result (¬ IsDeclared self.now class) (λ names. AreAllAbove self.now class names.now) }
    {
        match self.entry(class) {
            None => None,
            Some(entry) => Some(entry.up.as_slice()),
        }
    }

    /// Whether the first class is below the second.
    pub fn below(&self, first: Name, second: Name) -> bool
        ensures { IsTrue result ↔ IsClassBelow (of_classes self.now) first second }
    {
        self.are_in_order();
        let Some(entry) = self.entry(first) else {
            return first == second;
        };
        match self.number(second) {
            None => false,
            Some(number) => holds(entry.row.as_slice(), number),
        }
    }

    /// The order is decided.
    pub(crate) fn order_is_decided(&self)
        ensures { IsDecided (of_classes self.now) }
    {
        let _ = &self.numbers;
    }

    /// The classes are declared in order.
    pub(crate) fn are_in_order(&self)
        ensures { Follows [] self.now }
    {
        let _ = &self.numbers;
    }

    /// No two classes are below each other.
    pub(crate) fn classes_are_apart(&self)
        ensures { IsAntisymmetric (of_classes self.now) }
    {
        let _ = &self.numbers;
    }

    /// The numbers of these classes.
    fn numbers_of(&self, alloc: Global, classes: &[Name]) -> Result<Vec<u64>, AllocError>
        requires { Each (IsDeclared self.now) classes.now }
        ensures { IfOk result (λ row. HasNumbers self.now classes.now row.items) }
    {
        let mut row = empty_row(alloc, self.count() / 64 + 1)?;
        for class in classes {
            if let Some(number) = self.number(*class) {
                put_place(&mut row, number);
            }
        }
        Ok(row)
    }

    /// The same; an empty row where there are no classes.
    fn few_numbers_of(&self, alloc: Global, classes: &[Name]) -> Result<Vec<u64>, AllocError>
        requires { Each (IsDeclared self.now) classes.now }
        ensures { IfOk result (λ row. HasNumbers self.now classes.now row.items) }
    {
        if classes.is_empty() {
            return Ok(Vec::new(alloc));
        }
        let row = self.numbers_of(alloc, classes)?;
        Ok(row)
    }

    /// The row of a new class: its own number, and those of the classes above one of the classes with these numbers. The lowest of these come first, so that a row is read only where it adds something.
    fn new_row(&self, alloc: Global, numbers: &[u64]) -> Result<Vec<u64>, AllocError>
        ensures { IfOk result (λ row. (above : List ℕ) → HasNumbers self.now above numbers.now → IsNewRow self.now above row.items) }
    {
        let last = self.count();
        let mut row = empty_row(alloc, last / 64 + 1)?;
        put_place(&mut row, last);
        let mut end = last;
        while end > 0 {
            let number = end - 1;
            if holds_only(numbers, row.as_slice(), number) {
                put_row(&mut row, self.row_of(number));
            }
            end = end_below(numbers, row.as_slice(), number);
        }
        Ok(row)
    }

    /// The number of the lowest of the classes with these numbers.
    fn lowest(&self, numbers: &[u64]) -> Option<usize>
        ensures { MatchOption result ((n : ℕ) → n < length self.now → ¬ Holds numbers.now n) (λ n. (n < length self.now) × Holds numbers.now n) }
    {
        let mut end = self.count();
        while end > 0 {
            let number = end - 1;
            if holds(numbers, number) {
                return Some(number);
            }
            end = end_below(numbers, &[], number);
        }
        None
    }

    /// Puts in the classes whose numbers the first row holds, and the second doesn't.
    fn put_others(&self, names: &mut Vec<Name>, row: &[u64], seen: &[u64]) -> Result<(), AllocError>
        requires { IsStrictlyIncreasing names.old.items }
        ensures ascend { IsStrictlyIncreasing names.new.items }
        ensures has { OnOk result ((x : ℕ) → IsIn x names.new.items ↔ (IsIn x names.old.items ⊎ IsOtherNamed self.now row.now seen.now x 0)) }
    {
        let mut end = self.count();
        while end > 0 {
            let number = end - 1;
            if holds_only(row, seen, number) {
                put(names, self.name(number))?;
            }
            end = end_below(row, seen, number);
        }
        Ok(())
    }

    /// The classes whose numbers the row of a new class holds, ascending. Most of them are those above the lowest of the classes with the first numbers.
    fn names_above(
        &self,
        alloc: Global,
        numbers: &[u64],
        row: &[u64],
    ) -> Result<Vec<Name>, AllocError>
        ensures ascend { IfOk result (λ names. IsStrictlyIncreasing names.items) }
        ensures has { IfOk result (λ names. (above : List ℕ) → HasNumbers self.now above numbers.now → IsNewRow self.now above row.now → (x : ℕ) → IsIn x names.items ↔ NamedBefore self.now row.now x (length self.now)) }
    {
        self.are_in_order();
        let Some(lowest) = self.lowest(numbers) else {
            return Ok(Vec::new(alloc));
        };
        let entry = self.numbered(lowest);
        let mut names = Vec::from_slice(alloc, entry.up.as_slice())?;
        self.put_others(&mut names, row, entry.row.as_slice())?;
        Ok(names)
    }

    /// The class, and the classes whose numbers the row of a new class holds, ascending.
    fn names_of(
        &self,
        alloc: Global,
        class: Name,
        numbers: &[u64],
        row: &[u64],
    ) -> Result<Vec<Name>, AllocError>
        ensures ascend { IfOk result (λ names. IsStrictlyIncreasing names.items) }
        ensures has { IfOk result (λ names. (above : List ℕ) → HasNumbers self.now above numbers.now → IsNewRow self.now above row.now → (x : ℕ) → IsIn x names.items ↔ ((x ≡ class) ⊎ NamedBefore self.now row.now x (length self.now))) }
    {
        let mut names = self.names_above(alloc, numbers, row)?;
        put(&mut names, class)?;
        Ok(names)
    }

    /// The entry of a new class.
    fn new_entry(
        &self,
        alloc: Global,
        class: Name,
        above: &[Name],
    ) -> Result<ClassEntry, AllocError>
        requires { Each (IsDeclared self.now) above.now }
        ensures { IfOk result (IsNewEntry self.now (record { name = class; above = above.now })) }
    {
        let numbers = self.few_numbers_of(alloc, above)?;
        let row = self.new_row(alloc, numbers.as_slice())?;
        let up = self.names_of(alloc, class, numbers.as_slice(), row.as_slice())?;
        let above = Vec::from_slice(alloc, above)?;
        Ok(ClassEntry {
            name: class,
            above,
            up,
            row,
        })
    }

    /// Declares a class.
    pub fn push(&mut self, alloc: Global, class: Name, above: &[Name]) -> Result<(), AllocError>
        requires fresh { ¬ IsDeclared self.old class }
        requires known { Each (IsDeclared self.old) above.now }
        ensures ok { OnOk result (self.new ≡ self.old ++ record { name = class; above = above.now } ∷ []) }
        ensures err { OnErr result (self.new ≡ self.old) }
        ensures ordered { Follows [] self.old }
    {
        let entry = self.new_entry(alloc, class, above)?;
        let entry = Arc::new(alloc, entry)?;
        let number = Arc::new(alloc, self.count())?;
        let mut numbers = self.numbers.share(alloc)?;
        numbers.put(alloc, class.0, number)?;
        self.entries.push(alloc, entry)?;
        self.numbers = numbers;
        Ok(())
    }

    /// The table with a class more.
    pub(crate) fn with(
        self,
        alloc: Global,
        class: Name,
        above: &[Name],
    ) -> Result<ClassTable, AllocError>
        requires fresh { ¬ IsDeclared self class }
        requires known { Each (IsDeclared self) above.now }
        ensures ok { IfOk result (λ more. more ≡ self ++ record { name = class; above = above.now } ∷ []) }
        ensures ordered { Follows [] self }
    {
        let entry = self.new_entry(alloc, class, above)?;
        let entry = Arc::new(alloc, entry)?;
        let number = Arc::new(alloc, self.count())?;
        let ClassTable { entries, numbers } = self;
        let by_name = numbers.with(alloc, class.0, number)?;
        let more = entries.with(alloc, entry)?;
        Ok(ClassTable {
            entries: more,
            numbers: by_name,
        })
    }

    /// The declared classes.
    pub(crate) fn entries(&self) -> &GrownList<ClassEntry>
        ensures are { classes_of result.now ≡ self.now }
        ensures ordered { Follows [] self.now }
    {
        &self.entries
    }

    /// Whether the table declares the class as the entry does, if it declares it.
    fn agrees_at(&self, entry: &ClassEntry) -> bool
        ensures { IsTrue result ↔ Each (IsSameIfNamed (class_of entry.now)) self.now }
    {
        let entries = self.entries();
        for i in 0..entries.len() {
            let own = entries.get(i);
            if !are_same_if_named(entry, own) {
                return false;
            }
        }
        true
    }

    /// Whether a class that both tables declare has the same classes declared above it in both.
    pub(crate) fn agrees(&self, other: &ClassTable) -> bool
        ensures { IsTrue result ↔ Agree self.now other.now }
    {
        let entries = self.entries();
        for i in 0..entries.len() {
            let entry = entries.get(i);
            if !other.agrees_at(entry) {
                return false;
            }
        }
        true
    }
}

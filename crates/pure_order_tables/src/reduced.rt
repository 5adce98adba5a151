//! The classes that are above several classes of a sort, by rows of bits.
ghost use Rattle.std.specs.Prelude.{◌↔◌, ◌≤◌, ◌<◌, ◌++◌, ◌∷◌, [], ℕ, List, IsTrue, IfOk, length};
ghost use Rattle.pure_text.specs.Lists.{IsIn};
ghost use Rattle.pure_order_tables.specs.Classes.{IsAboveAnother};
ghost use Rattle.pure_order_tables.specs.Twice.{AreRowsAbove, IsTwiceRow};

use crate::rows::{empty_row, holds, put_common, put_row};
use crate::sorts::FEW;
use crate::tables::Tables;
use pure_typ::{Name, Sort};
use std::alloc::{AllocError, Global};

impl Tables {
    /// Puts in what is above one more class: into the first row all, and into the second what the first held before.
    fn put_above(&self, once: &mut Vec<u64>, twice: &mut Vec<u64>, class: Name)
        ensures { (s : List ℕ) → ¬ IsIn class s → AreRowsAbove self.now s once.old.items twice.old.items → AreRowsAbove self.now (s ++ class ∷ []) once.new.items twice.new.items }
    {
        if let Some(number) = self.find_number(class) {
            let row = self.row_of(number);
            put_common(twice, once.as_slice(), row);
            put_row(once, row);
        }
    }

    /// The numbers of the classes above two classes of the sort.
    fn above_two(&self, alloc: Global, s: &Sort) -> Result<Vec<u64>, AllocError>
        ensures { IfOk result (λ twice. IsTwiceRow self.now s.now twice.items) }
    {
        let words = self.class_count() / 64 + 1;
        let mut once = empty_row(alloc, words)?;
        let mut twice = empty_row(alloc, words)?;
        for class in s.classes() {
            self.put_above(&mut once, &mut twice, *class);
        }
        Ok(twice)
    }

    /// The numbers of the classes above two classes of the sort; an empty row where it has few classes.
    pub fn twice_above(&self, alloc: Global, s: &Sort) -> Result<Vec<u64>, AllocError>
        ensures { IfOk result (λ twice. IsTwiceRow self.now s.now twice.items) }
    {
        if s.classes().len() <= FEW {
            return Ok(Vec::new(alloc));
        }
        let twice = self.above_two(alloc, s)?;
        Ok(twice)
    }

    /// Whether another class of the sort is below the class, which is in it: the row holds the numbers of the classes above two of it.
    pub fn is_in_twice(&self, s: &Sort, twice: &[u64], class: Name) -> bool
        requires member { IsIn class s.now }
        requires twice { IsTwiceRow self.now s.now twice.now }
        requires some { 0 < length twice.now }
        ensures { IsTrue result ↔ IsAboveAnother self.now s.now class }
    {
        self.are_in_order();
        match self.find_number(class) {
            None => false,
            Some(number) => holds(twice, number),
        }
    }
}

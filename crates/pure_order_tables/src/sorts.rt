//! The order of sorts with many classes, by a row of bits.
ghost use Rattle.std.specs.Prelude.{◌≡◌, ◌↔◌, ◌≤◌, IsTrue, length};
ghost use Rattle.std.specs.Bool.{OnTrue};
ghost use Rattle.pure_definitions.specs.Types.Order.{HasClassBelow, IsSortBelow};
ghost use Rattle.pure_order_tables.specs.Sorts.{AreUpWords};

use crate::names::has;
use crate::rows::{holds, put_words};
use crate::tables::Tables;
use pure_typ::{Name, Sort};

/// With more classes than this a sort is worth a row that is kept.
pub(crate) const FEW: usize = 8;

/// With more classes than this a sort is worth a row in a frame.
const SINGLE: usize = 1;

/// As many classes have a place in a row that stands in a frame.
pub(crate) const MOST: usize = 4096;

impl Tables {
    /// Whether both sorts have some classes, and the words of a frame have room for the numbers of all classes.
    fn is_wide(&self, first: &Sort, second: &Sort) -> bool
        ensures { OnTrue result (length self.now.classes ≤ 4096) }
    {
        self.class_count() <= MOST
            && first.classes().len() > SINGLE
            && second.classes().len() > SINGLE
    }

    /// The numbers of the classes above a declared one of these.
    pub(crate) fn up_words(&self, classes: &[Name]) -> [u64; 64]
        ensures { AreUpWords self.now classes.now result }
    {
        let mut words = [0; 64];
        for class in classes {
            if let Some(number) = self.find_number(*class) {
                put_words(&mut words, self.row_of(number));
            }
        }
        words
    }

    /// Whether a class of the sort, the classes above which have their numbers in the words, is below the class.
    fn has_below_by(&self, sort: &Sort, words: &[u64], class: Name) -> bool
        requires within { length self.now.classes ≤ 4096 }
        requires words { AreUpWords self.now sort.now words.now }
        ensures { IsTrue result ↔ HasClassBelow self.now sort.now class }
    {
        self.are_in_order();
        if has(sort.classes(), class) {
            return true;
        }
        match self.find_number(class) {
            None => false,
            Some(number) => holds(words, number),
        }
    }

    /// Whether the first sort is below the second, by one row for all classes of the first.
    fn is_below_by_words(&self, first: &Sort, second: &Sort) -> bool
        requires { length self.now.classes ≤ 4096 }
        ensures { IsTrue result ↔ IsSortBelow self.now first.now second.now }
    {
        let words = self.up_words(first.classes());
        for class in second.classes() {
            if !self.has_below_by(first, &words, *class) {
                return false;
            }
        }
        true
    }

    /// Whether the first sort is below the second.
    pub fn sort_below(&self, first: &Sort, second: &Sort) -> bool
        ensures { IsTrue result ↔ IsSortBelow self.now first.now second.now }
    {
        if *first == *second {
            return true;
        }
        if self.is_wide(first, second) {
            return self.is_below_by_words(first, second);
        }
        for class in second.classes() {
            if !self.some_below(first.classes(), *class) {
                return false;
            }
        }
        true
    }
}

//! Rows of bits beside the domains of an arity, and the order of domains by them.
ghost use Rattle.std.specs.Prelude.{◌≡◌, ◌↔◌, ℕ, List, IsTrue, IfOk};
ghost use Rattle.pure_definitions.specs.Types.Order.{AreDomainsBelow, HasClassBelow, IsSortBelow};
ghost use Rattle.pure_order_tables.specs.ArityView.{arity_of};
ghost use Rattle.pure_order_tables.specs.Kept.{AreKeptEntries, AreKeptRows, IsKeptEntry, IsKeptRow, IsSortRow};

use crate::rows::{empty_row, holds, put_row, within};
use crate::sorts::{FEW, MOST};
use crate::tables::{ArityEntry, Tables};
use pure_shared_maps::GrownList;
use pure_typ::{Name, Sort};
use std::alloc::{AllocError, Global};
use std::sync::Arc;

/// Whether one of the sorts has many classes.
fn is_any_wide(sorts: &[Sort]) -> bool {
    for sort in sorts {
        if sort.classes().len() > FEW {
            return true;
        }
    }
    false
}

impl Tables {
    /// The row of the sort of these classes; an empty one where one of them isn't declared.
    fn sort_row(&self, alloc: Global, classes: &[Name]) -> Result<Vec<u64>, AllocError>
        ensures { IfOk result (λ row. IsKeptRow self.now.classes classes.now row.items) }
    {
        let mut row = empty_row(alloc, self.class_count() / 64 + 1)?;
        for class in classes {
            let Some(number) = self.find_number(*class) else {
                return Ok(Vec::new(alloc));
            };
            if !holds(row.as_slice(), number) {
                put_row(&mut row, self.row_of(number));
            }
        }
        Ok(row)
    }

    /// The row that is kept of the sort: an empty one where it has few classes.
    fn kept_row(&self, alloc: Global, sort: &Sort) -> Result<Vec<u64>, AllocError>
        ensures { IfOk result (λ row. IsKeptRow self.now.classes sort.now row.items) }
    {
        if sort.classes().len() <= FEW {
            return Ok(Vec::new(alloc));
        }
        let row = self.sort_row(alloc, sort.classes())?;
        Ok(row)
    }

    /// The rows that are kept of these sorts, if one of them has many classes.
    fn kept_rows(
        &self,
        alloc: Global,
        sorts: &[Sort],
    ) -> Result<Option<Arc<Vec<Vec<u64>>>>, AllocError>
        ensures { IfOk result (λ rows. AreKeptRows self.now.classes sorts.now rows) }
    {
        if !is_any_wide(sorts) {
            return Ok(None);
        }
        let mut rows = Vec::new(alloc);
        for sort in sorts {
            rows.push(self.kept_row(alloc, sort)?)?;
        }
        let rows = Arc::new(alloc, rows)?;
        Ok(Some(rows))
    }

    /// The arity with the rows of these tables beside its domains.
    pub(crate) fn kept(&self, alloc: Global, arity: &ArityEntry) -> Result<ArityEntry, AllocError>
        ensures same { IfOk result (λ kept. arity_of kept ≡ arity_of arity.now) }
        ensures kept { IfOk result (λ kept. IsKeptEntry self.now.classes kept) }
    {
        let rows = self.kept_rows(alloc, arity.sorts())?;
        let kept = arity.with_rows(rows)?;
        Ok(kept)
    }

    /// The same of each arity of other tables.
    pub(crate) fn all_kept(
        &self,
        alloc: Global,
        other: &Tables,
    ) -> Result<GrownList<ArityEntry>, AllocError>
        ensures { IfOk result (λ kept. AreKeptEntries self.now.classes other.now kept) }
    {
        let arities = other.arities();
        let mut all = GrownList::empty(alloc);
        for i in 0..arities.len() {
            let arity = arities.get(i);
            let kept = self.kept(alloc, arity)?;
            let kept = Arc::new(alloc, kept)?;
            all.push(alloc, kept)?;
        }
        Ok(all)
    }

    /// Whether a class of a sort, whose row this is, is below the class.
    fn has_below_in(&self, row: &[u64], class: Name) -> bool
        ensures { (s : List ℕ) → IsSortRow self.now.classes s row.now → IsTrue result ↔ HasClassBelow self.now s class }
    {
        self.are_in_order();
        match self.find_number(class) {
            None => false,
            Some(number) => holds(row, number),
        }
    }

    /// Whether a sort, whose row this is, is below the second sort.
    fn is_row_below(&self, row: &[u64], second: &Sort) -> bool
        ensures { (s : List ℕ) → IsSortRow self.now.classes s row.now → IsTrue result ↔ IsSortBelow self.now s second.now }
    {
        for class in second.classes() {
            if !self.has_below_in(row, *class) {
                return false;
            }
        }
        true
    }

    /// Whether the first sort is below the second, whose row this is.
    fn is_below_row_of(&self, first: &Sort, second: &Sort, row: &[u64]) -> bool
        requires { IsSortRow self.now.classes second.now row.now }
        ensures { IsTrue result ↔ IsSortBelow self.now first.now second.now }
    {
        if self.class_count() > MOST {
            return self.sort_below(first, second);
        }
        let words = self.up_words(first.classes());
        within(row, &words)
    }

    /// Whether the first sort is below the second, of which no row is kept.
    fn is_below_few(&self, first: &Sort, lower: &[u64], second: &Sort) -> bool
        requires { IsKeptRow self.now.classes first.now lower.now }
        ensures { IsTrue result ↔ IsSortBelow self.now first.now second.now }
    {
        if lower.len() == 0 {
            return self.sort_below(first, second);
        }
        self.is_row_below(lower, second)
    }

    /// Whether the first sort is below the second, by the rows that are kept of them.
    fn kept_below(&self, first: &Sort, lower: &[u64], second: &Sort, upper: &[u64]) -> bool
        requires first { IsKeptRow self.now.classes first.now lower.now }
        requires second { IsKeptRow self.now.classes second.now upper.now }
        ensures { IsTrue result ↔ IsSortBelow self.now first.now second.now }
    {
        if upper.len() == 0 {
            return self.is_below_few(first, lower, second);
        }
        if lower.len() == 0 {
            return self.is_below_row_of(first, second, upper);
        }
        within(upper, lower)
    }

    /// Whether the domains of the first arity are below those of the second.
    pub(crate) fn arity_below(&self, first: &ArityEntry, second: &ArityEntry) -> bool
        requires first { IsKeptEntry self.now.classes first.now }
        requires second { IsKeptEntry self.now.classes second.now }
        ensures { IsTrue result ↔ AreDomainsBelow self.now (arity_of first.now) (arity_of second.now) }
    {
        let firsts = first.sorts();
        let seconds = second.sorts();
        if firsts.len() != seconds.len() {
            return false;
        }
        for i in 0..firsts.len() {
            let lower = &firsts[i];
            let upper = &seconds[i];
            if !self.kept_below(lower, first.row(i), upper, second.row(i)) {
                return false;
            }
        }
        true
    }
}

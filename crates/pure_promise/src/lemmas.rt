//! Lemmas, of which each row is formed when it is put into the table.
ghost use Rattle.std.specs.Prelude.{◌≡◌, ◌<◌, ◌++◌, ◌∷◌, [], List, IfOk, OnOk, length};
ghost use Rattle.pure_promise_fates.specs.Reach.{IsAt};
ghost use Rattle.pure_print.specs.declared.row.Row as print;
ghost use Rattle.pure_print.specs.Growing.{HoldsRows};
ghost use Rattle.pure_promise.specs.declared.entry.Entry as code;
ghost use Rattle.pure_promise.specs.Seen.{seen, seen_entry};
ghost use Rattle.pure_promise.specs.Rows.{IsRowOf};
ghost use Rattle.pure_promise.specs.Lemmas.{AreReached, IsRowSuchThat};

use crate::entry::Entry;
use crate::lemma_rows::{put_at, row_at, status_at};
use pure_print::{Row, RowStatus, TableText};
use pure_promise_fates::Reach;
use pure_term::Names;
use std::alloc::{AllocError, Global};

/// Lemmas with the texts of their names, and what each of them reaches.
#[derive(Clone, Copy)]
pub struct Lemmas<'l> {
    pub names: &'l Names,
    pub entries: &'l [Entry],
    pub reached: &'l [Reach],
}

impl<'l> Lemmas<'l> {
    /// The row of the lemma at the place.
    pub fn row(&self, alloc: Global, place: usize) -> Result<Row, AllocError>
        requires reached { AreReached self.now }
        requires within { place < length self.now.entries.now }
        ensures { IfOk result (λ row. (e : code.Entry) → IsAt self.now.entries.now place e → IsRowOf self.now.names.now (seen self.now.entries.now) (seen_entry e) row) }
    {
        row_at(alloc, self.names, self.entries, self.reached, place)
    }

    /// The status of that row.
    pub fn status(&self, alloc: Global, place: usize) -> Result<RowStatus, AllocError>
        requires reached { AreReached self.now }
        requires within { place < length self.now.entries.now }
        ensures { IfOk result (λ status. (e : code.Entry) → IsAt self.now.entries.now place e → IsRowSuchThat self.now.names.now (seen self.now.entries.now) (seen_entry e) (λ row. row.status ≡ status)) }
    {
        status_at(alloc, self.names, self.entries, self.reached, place)
    }

    /// Puts that row behind the others of the table, whose text takes its bytes at once.
    pub fn put_row(
        &self,
        alloc: Global,
        table: &mut TableText,
        place: usize,
    ) -> Result<(), AllocError>
        requires reached { AreReached self.now }
        requires within { place < length self.now.entries.now }
        ensures { OnOk result ((e : code.Entry) → IsAt self.now.entries.now place e → IsRowSuchThat self.now.names.now (seen self.now.entries.now) (seen_entry e) (λ row. (rows : List print.Row) → HoldsRows table.old rows → HoldsRows table.new (rows ++ row ∷ []))) }
    {
        put_at(alloc, table, self.names, self.entries, self.reached, place)
    }
}

//! The rows of lemmas.
ghost use Rattle.std.specs.Prelude.{◌≡◌, ◌<◌, ◌++◌, ◌∷◌, [], ℕ, List, length, map, IfOk, OnOk};
ghost use Rattle.pure_print.specs.declared.row.Row as print;
ghost use Rattle.pure_print.specs.Growing.{HoldsRows};
ghost use Rattle.pure_promise_fates.specs.Entries as fates;
ghost use Rattle.pure_promise_fates.specs.Entries.{AreEntries, IsFate};
ghost use Rattle.pure_promise_fates.specs.Reach.{IsAt, AreReaches};
ghost use Rattle.pure_promise.specs.declared.entry.Entry as code;
ghost use Rattle.pure_promise.specs.Entries.{plain};
ghost use Rattle.pure_promise.specs.Seen.{seen, seen_entry, reported};
ghost use Rattle.pure_promise.specs.Rows.{IsRowOf, AreRowsOf};
ghost use Rattle.pure_promise.specs.Lemmas.{IsRowSuchThat};

use crate::entry::Entry;
use crate::row::{put_row_of, row_of, status_of};
use pure_print::{Row, RowStatus, TableText};
use pure_promise_fates::{Reach, fate_of, reaches};
use pure_term::Names;
use std::alloc::{AllocError, Global};

/// The row of the lemma at the place, by what each reaches.
pub(crate) fn row_at(
    alloc: Global,
    names: &Names,
    entries: &[Entry],
    reached: &[Reach],
    place: usize,
) -> Result<Row, AllocError>
    requires entries { AreEntries (map reported entries.now) }
    requires reached { (width : ℕ) × AreReaches (map reported entries.now) width reached.now }
    requires count { length reached.now ≡ length entries.now }
    requires within { place < length entries.now }
    ensures { IfOk result (λ row. (e : code.Entry) → IsAt entries.now place e → IsRowOf names.now (seen entries.now) (seen_entry e) row) }
{
    let fate = fate_of(alloc, entries, reached, place)?;
    let row = row_of(alloc, names, entries, &entries[place], &fate)?;
    Ok(row)
}

/// The status of the row of the lemma at the place, by what each reaches.
pub(crate) fn status_at(
    alloc: Global,
    _names: &Names,
    entries: &[Entry],
    reached: &[Reach],
    place: usize,
) -> Result<RowStatus, AllocError>
    requires entries { AreEntries (map reported entries.now) }
    requires reached { (width : ℕ) × AreReaches (map reported entries.now) width reached.now }
    requires count { length reached.now ≡ length entries.now }
    requires within { place < length entries.now }
    ensures { IfOk result (λ status. (e : code.Entry) → IsAt entries.now place e → IsRowSuchThat _names.now (seen entries.now) (seen_entry e) (λ row. row.status ≡ status)) }
{
    let fate = fate_of(alloc, entries, reached, place)?;
    let status = status_of(&fate);
    Ok(status)
}

/// Puts the row of the lemma at the place behind the others of the table, by what each reaches.
pub(crate) fn put_at(
    alloc: Global,
    table: &mut TableText,
    names: &Names,
    entries: &[Entry],
    reached: &[Reach],
    place: usize,
) -> Result<(), AllocError>
    requires entries { AreEntries (map reported entries.now) }
    requires reached { (width : ℕ) × AreReaches (map reported entries.now) width reached.now }
    requires count { length reached.now ≡ length entries.now }
    requires within { place < length entries.now }
    ensures { OnOk result ((e : code.Entry) → IsAt entries.now place e → IsRowSuchThat names.now (seen entries.now) (seen_entry e) (λ row. (rows : List print.Row) → HoldsRows table.old rows → HoldsRows table.new (rows ++ row ∷ []))) }
{
    let fate = fate_of(alloc, entries, reached, place)?;
    put_row_of(table, names, entries, &entries[place], &fate)?;
    Ok(())
}

/// The rows of the lemmas, in their order: proved, failed, tainted, cancelled or unsettled.
pub fn rows(alloc: Global, names: &Names, entries: &[Entry]) -> Result<Vec<Row>, AllocError>
    requires { AreEntries (map plain (seen entries.now)) }
    ensures { IfOk result (λ rows. AreRowsOf names.now (seen entries.now) rows.items) }
{
    let reached = reaches(alloc, entries)?;
    let mut rows = Vec::with_capacity(alloc, entries.len())?;
    for place in 0..entries.len() {
        let row = row_at(alloc, names, entries, &reached, place)?;
        rows.push(row)?;
    }
    Ok(rows)
}

//! What takes the rows of a table, one behind the other.
ghost use Rattle.std.specs.Prelude.{◌≡◌, ◌∷◌, ◌++◌, [], List, IfOk, OnOk, map};
ghost use Rattle.pure_print.specs.declared.row.Row as print;
ghost use Rattle.pure_print.specs.Growing.{HoldsRows};

use pure_print::{Row, RowStatus, TableText};
use pure_promise::Lemmas;
use std::alloc::{AllocError, Global};

/// What takes rows, in order: their text, themselves, or what is wanted of them.
pub trait TakesRows {
    ghost use Rattle.std.specs.Prelude.{◌≡◌, ◌<◌, ◌∷◌, ◌++◌, [], List, OnOk, length};
    ghost use Rattle.pure_promise_fates.specs.Reach.{IsAt};
    ghost use Rattle.pure_print.specs.declared.row.Row as print;
    ghost use Rattle.pure_promise.specs.declared.entry.Entry as code;
    ghost use Rattle.pure_promise.specs.Seen.{seen, seen_entry};
    ghost use Rattle.pure_promise.specs.Rows.{IsRowOf};
    ghost use Rattle.pure_promise.specs.Lemmas.{AreReached};

    // It has taken these rows.
    ghost holds: { Self → List print.Row → Type 0 };

    /// Takes the row.
    fn take_row(&mut self, alloc: Global, row: &Row) -> Result<(), AllocError>
        ensures { OnOk result ((rows : List print.Row) → holds self.old rows → holds self.new (rows ++ row.now ∷ [])) };

    /// Takes the row of the lemma at the place.
    fn take_lemma(
        &mut self,
        alloc: Global,
        lemmas: &Lemmas<'_>,
        place: usize,
    ) -> Result<(), AllocError>
        requires reached { AreReached lemmas.now }
        requires within { place < length lemmas.now.entries.now }
        ensures { OnOk result ((e : code.Entry) → IsAt lemmas.now.entries.now place e → (row : print.Row) × IsRowOf lemmas.now.names.now (seen lemmas.now.entries.now) (seen_entry e) row × ((rows : List print.Row) → holds self.old rows → holds self.new (rows ++ row ∷ []))) };
}

impl TakesRows for TableText {
    ghost holds = { HoldsRows };

    fn take_row(&mut self, _alloc: Global, row: &Row) -> Result<(), AllocError> {
        self.put(row)
    }

    fn take_lemma(
        &mut self,
        alloc: Global,
        lemmas: &Lemmas<'_>,
        place: usize,
    ) -> Result<(), AllocError> {
        lemmas.put_row(alloc, self, place)
    }
}

/// The statuses of the rows.
impl TakesRows for Vec<RowStatus> {
    ghost holds = { λ statuses rows. statuses.items ≡ map print.Row.status rows };

    fn take_row(&mut self, _alloc: Global, row: &Row) -> Result<(), AllocError> {
        self.push(row.status)?;
        Ok(())
    }

    fn take_lemma(
        &mut self,
        alloc: Global,
        lemmas: &Lemmas<'_>,
        place: usize,
    ) -> Result<(), AllocError> {
        let status = lemmas.status(alloc, place)?;
        self.push(status)?;
        Ok(())
    }
}

/// The rows.
impl TakesRows for Vec<Row> {
    ghost holds = { λ taken rows. taken.items ≡ rows };

    fn take_row(&mut self, alloc: Global, row: &Row) -> Result<(), AllocError> {
        let row = row.copy(alloc)?;
        self.push(row)?;
        Ok(())
    }

    fn take_lemma(
        &mut self,
        alloc: Global,
        lemmas: &Lemmas<'_>,
        place: usize,
    ) -> Result<(), AllocError> {
        let row = lemmas.row(alloc, place)?;
        self.push(row)?;
        Ok(())
    }
}

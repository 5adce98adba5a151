//! The rows of lemmas put into the places that theories left for them.
ghost use Rattle.std.specs.Prelude.{◌≡◌, [], ◌∷◌, List, drop, IfOk, OnOk};
ghost use Rattle.std.specs.List.{flat_map};
ghost use Rattle.pure_print.specs.declared.row.Row as print;
ghost use Rattle.pure_promise.specs.Seen.{seen};
ghost use Rattle.pure_promise.specs.Rows.{AreRowsOf};
ghost use Rattle.pure_promise.specs.Lemmas.{AreReached};
ghost use Rattle.pure_theory_run.specs.Outline.{outlines};
ghost use Rattle.pure_table.specs.Filling.{places_of, Fills};

use crate::taking::TakesRows;
use pure_print::Row;
use pure_promise::Lemmas;
use pure_theory_run::Closed;
use std::alloc::{AllocError, Global};
use std::sync::Arc;

/// Puts the row of the next lemma, where there is one.
fn fill_open<T: TakesRows>(
    alloc: Global,
    table: &mut T,
    lemmas: &Lemmas<'_>,
    next: usize,
) -> Result<usize, AllocError>
    requires { AreReached lemmas.now }
    ensures { IfOk result (λ n. (rows : List print.Row) → AreRowsOf lemmas.now.names.now (seen lemmas.now.entries.now) rows → Fills (T.holds table.old) (T.holds table.new) (None ∷ []) (drop next rows) (drop n rows)) }
{
    if next < lemmas.entries.len() {
        table.take_lemma(alloc, lemmas, next)?;
        return Ok(next + 1);
    }
    Ok(next)
}

/// Puts what stands at one place; where the place is open, the row of the next lemma.
fn fill_one<T: TakesRows>(
    alloc: Global,
    table: &mut T,
    place: &Option<Row>,
    lemmas: &Lemmas<'_>,
    next: usize,
) -> Result<usize, AllocError>
    requires { AreReached lemmas.now }
    ensures { IfOk result (λ n. (rows : List print.Row) → AreRowsOf lemmas.now.names.now (seen lemmas.now.entries.now) rows → Fills (T.holds table.old) (T.holds table.new) (place.now ∷ []) (drop next rows) (drop n rows)) }
{
    match place {
        Some(row) => {
            table.take_row(alloc, row)?;
            Ok(next)
        }
        None => fill_open(alloc, table, lemmas, next),
    }
}

/// Puts the rows of a theory.
fn fill<T: TakesRows>(
    alloc: Global,
    table: &mut T,
    places: &[Option<Row>],
    lemmas: &Lemmas<'_>,
    next: usize,
) -> Result<usize, AllocError>
    requires { AreReached lemmas.now }
    ensures { IfOk result (λ n. (rows : List print.Row) → AreRowsOf lemmas.now.names.now (seen lemmas.now.entries.now) rows → Fills (T.holds table.old) (T.holds table.new) places.now (drop next rows) (drop n rows)) }
{
    let mut next = next;
    for place in places {
        next = fill_one(alloc, table, place, lemmas, next)?;
    }
    Ok(next)
}

/// Puts the rows of a theory that closed.
fn fill_theory<T: TakesRows>(
    alloc: Global,
    table: &mut T,
    theory: &Closed,
    lemmas: &Lemmas<'_>,
    next: usize,
) -> Result<usize, AllocError>
    requires { AreReached lemmas.now }
    ensures { IfOk result (λ n. (rows : List print.Row) → AreRowsOf lemmas.now.names.now (seen lemmas.now.entries.now) rows → Fills (T.holds table.old) (T.holds table.new) (places_of theory.now) (drop next rows) (drop n rows)) }
{
    match theory.refusal() {
        Some(row) => {
            table.take_row(alloc, row)?;
            Ok(next)
        }
        None => fill(alloc, table, theory.rows(), lemmas, next),
    }
}

/// Puts the rows of theories that closed, with those of the lemmas in their places.
pub(crate) fn fill_all<T: TakesRows>(
    alloc: Global,
    table: &mut T,
    closed: &[Arc<Closed>],
    lemmas: &Lemmas<'_>,
) -> Result<(), AllocError>
    requires { AreReached lemmas.now }
    ensures { OnOk result ((rows : List print.Row) → AreRowsOf lemmas.now.names.now (seen lemmas.now.entries.now) rows → (left : List print.Row) × Fills (T.holds table.old) (T.holds table.new) (flat_map places_of (outlines closed.now)) rows left) }
{
    let mut next = 0;
    for each in closed {
        let theory: &Closed = &**each;
        next = fill_theory(alloc, table, theory, lemmas, next)?;
    }
    Ok(())
}

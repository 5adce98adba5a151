//! The rows of a session's table.
ghost use Rattle.std.specs.Prelude.{◌≡◌, List, IfOk, OnOk, map};
ghost use Rattle.pure_definitions.specs.Names.{Label};
ghost use Rattle.pure_promise_fates.specs.Entries.{AreEntries};
ghost use Rattle.pure_graph.specs.Session as graph;
ghost use Rattle.pure_promise.specs.Entries.{plain};
ghost use Rattle.pure_promise.specs.Seen.{seen};
ghost use Rattle.pure_promise.specs.Lemmas.{AreReached};
ghost use Rattle.pure_session.specs.Refused.{all_refused};
ghost use Rattle.pure_theory_run.specs.Outline.{outlines};
ghost use Rattle.pure_table.specs.Printed.{ArePartsOf, AreTableRows, TakesTableRows};

use crate::filling::fill_all;
use crate::refused::put_refused;
use crate::taking::TakesRows;
use pure_print::Row;
use pure_promise::{Entry, Lemmas};
use pure_promise_fates::reaches;
use pure_session::RefusedFile;
use pure_theory_run::Closed;
use pure_typ::Names;
use std::alloc::{AllocError, Global};
use std::sync::Arc;

/// Puts the rows of the theories and of the files that are refused.
fn put_all<T: TakesRows>(
    alloc: Global,
    table: &mut T,
    closed: &[Arc<Closed>],
    lemmas: &Lemmas<'_>,
    refused: &[RefusedFile],
) -> Result<(), AllocError>
    requires { AreReached lemmas.now }
    ensures { OnOk result ((S : graph.Session) (cancelled : List Label) → ArePartsOf S cancelled (record { texts = lemmas.now.names.now; values = outlines closed.now; entries = seen lemmas.now.entries.now; refused = all_refused refused.now }) → TakesTableRows (T.holds table.old) (T.holds table.new) S cancelled (seen lemmas.now.entries.now)) }
{
    fill_all(alloc, table, closed, lemmas)?;
    put_refused(alloc, table, refused)?;
    Ok(())
}

/// Puts the rows of a session's table, of what its theories left, the entries of its lemmas, and the files that were refused,
/// into what takes them, one behind the other: the row of a lemma is formed when its turn comes.
///
/// # Errors
///
/// Want of memory alone.
pub fn put_table<T: TakesRows>(
    alloc: Global,
    table: &mut T,
    names: &Names,
    closed: &[Arc<Closed>],
    entries: &[Entry],
    refused: &[RefusedFile],
) -> Result<(), AllocError>
    requires { AreEntries (map plain (seen entries.now)) }
    ensures { OnOk result ((S : graph.Session) (cancelled : List Label) → ArePartsOf S cancelled (record { texts = names.now; values = outlines closed.now; entries = seen entries.now; refused = all_refused refused.now }) → TakesTableRows (T.holds table.old) (T.holds table.new) S cancelled (seen entries.now)) }
{
    let reached = reaches(alloc, entries)?;
    let lemmas = Lemmas {
        names,
        entries,
        reached: reached.as_slice(),
    };
    put_all(alloc, table, closed, &lemmas, refused)?;
    Ok(())
}

/// The rows of a session's table, of what its theories left, the entries of its lemmas, and the files that were refused.
///
/// # Errors
///
/// Want of memory alone.
pub fn table(
    alloc: Global,
    names: &Names,
    closed: &[Arc<Closed>],
    entries: &[Entry],
    refused: &[RefusedFile],
) -> Result<Vec<Row>, AllocError>
    requires { AreEntries (map plain (seen entries.now)) }
    ensures { IfOk result (λ table. (S : graph.Session) (cancelled : List Label) → ArePartsOf S cancelled (record { texts = names.now; values = outlines closed.now; entries = seen entries.now; refused = all_refused refused.now }) → AreTableRows S cancelled (seen entries.now) table.items) }
{
    let mut rows = Vec::new(alloc);
    put_table(alloc, &mut rows, names, closed, entries, refused)?;
    Ok(rows)
}

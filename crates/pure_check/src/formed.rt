//! What is asked for of the table that a session comes to.
ghost use Rattle.std.specs.Prelude.{◌≡◌, IfOk, List, length, map};
ghost use Rattle.std.specs.List.{list_all};
ghost use Rattle.pure_definitions.specs.Names.{Label};
ghost use Rattle.pure_graph.specs.Session as graph;
ghost use Rattle.pure_graph.specs.Session.{shown};
ghost use Rattle.pure_session.specs.Refused.{all_refused};
ghost use Rattle.pure_machine.specs.Step.{IsFinished};
ghost use Rattle.pure_promise_fates.specs.Entries.{AreEntries};
ghost use Rattle.pure_check_work.specs.Promise.Entries.{plain};
ghost use Rattle.pure_check_work.specs.Promise.Seen.{seen};
ghost use Rattle.pure_check_work.specs.Table.Printed.{ArePartsOf, AreTableRows};
ghost use Rattle.pure_check_work.specs.TheoryRun.Outline.{outlines};
ghost use Rattle.pure_citations.specs.Cited.{forks};
ghost use Rattle.pure_print.specs.RowText.{total_line};
ghost use Rattle.pure_row_places.specs.Scans.{seen_scans, seen_refusals};
ghost use Rattle.pure_check.specs.Jobs.Places.{places_text};
ghost use Rattle.pure_check.specs.Formed.{IsFormed, IsTextOfRows, SaysOf, IsFormedTable, ArePremises};
ghost use Rattle.pure_check.specs.declared.formed.Extent.TheVariants as extent;
ghost use Rattle.pure_check.specs.Meaning as spec;

use crate::axioms::axioms_of;
use crate::graphed::graph_of;
use pure_board::Closed;
use pure_check_work::table::{put_table, table};
use pure_check_work::{Checking, Said, said_by};
use pure_print::{Row, RowStatus, TableText, last_line};
use pure_row_places::{RefusedScan, Scan, push_lines};
use pure_session::RefusedFile;
use pure_text::Text;
use pure_typ::{Names, NamesByBase};
use std::alloc::{AllocError, Global};

/// How much of a table's text is formed.
#[derive(Clone, Copy)]
pub(crate) enum Extent<'e> {
    /// All of it.
    Whole,
    /// The last line alone.
    LastLine,
    /// All of it, each row behind the place at which its command stands in these theories and refused files.
    Placed {
        theories: &'e [Scan],
        refused: &'e [RefusedScan],
    },
    /// What is said of the lemma with this full name.
    Axioms {
        name: &'e Text,
    },
    /// The graph of the session, whose theories have these names.
    Graph {
        theories: &'e [Text],
    },
}

/// What is asked for of a table, and whether that is clean.
#[derive(Drop)]
pub(crate) struct Formed {
    pub(crate) text: Text,
    pub(crate) clean: bool,
}

/// Whether the status is declared or proved.
fn is_good_status(status: RowStatus) -> bool
    ensures { result ≡ spec.is_good_status status }
{
    match status {
        RowStatus::Declared => true,
        RowStatus::Refused => false,
        RowStatus::Proved => true,
        RowStatus::Failed => false,
        RowStatus::Tainted => false,
        RowStatus::Cancelled => false,
        RowStatus::Unsettled => false,
    }
}

/// Whether each row is declared or proved.
pub(crate) fn are_good(rows: &[Row]) -> bool
    ensures { result ≡ list_all spec.is_good rows.now }
{
    rows.iter().all(|row| is_good_status(row.status))
}

/// Whether each status is declared or proved.
fn are_good_statuses(statuses: &[RowStatus]) -> bool
    ensures { result ≡ list_all spec.is_good_status statuses.now }
{
    statuses.iter().all(|status| is_good_status(*status))
}

/// The rows of the table.
fn rows_of(
    alloc: Global,
    names: &Names,
    said: &Said,
    refused: &[RefusedFile],
) -> Result<Vec<Row>, AllocError>
    requires entries { AreEntries (map plain (seen said.now.entries.items)) }
    ensures { IfOk result (λ rows. (S : graph.Session) (cancelled : List Label) → ArePartsOf S cancelled (record { texts = names.now; values = outlines said.now.closed.items; entries = seen said.now.entries.items; refused = all_refused refused.now }) → AreTableRows S cancelled (seen said.now.entries.items) rows.items) }
{
    table(
        alloc,
        names,
        said.closed.as_slice(),
        said.entries.as_slice(),
        refused,
    )
}

/// The whole text of the table.
fn form_whole(
    alloc: Global,
    names: &Names,
    said: &Said,
    refused: &[RefusedFile],
    files: u32,
) -> Result<Formed, AllocError>
    requires entries { AreEntries (map plain (seen said.now.entries.items)) }
    ensures { IfOk result (λ f. (S : graph.Session) (cancelled : List Label) → ArePartsOf S cancelled (record { texts = names.now; values = outlines said.now.closed.items; entries = seen said.now.entries.items; refused = all_refused refused.now }) → IsFormedTable S cancelled names.now (forks said.now.duties.items) (seen said.now.entries.items) extent.Whole files f.text f.clean) }
{
    let mut table = TableText::empty(alloc);
    put_table(
        alloc,
        &mut table,
        names,
        said.closed.as_slice(),
        said.entries.as_slice(),
        refused,
    )?;
    let clean = are_good_statuses(table.statuses.as_slice());
    let text = table.finish(files)?;
    Ok(Formed { text, clean })
}

/// The last line of the table.
fn form_last_line(
    alloc: Global,
    names: &Names,
    said: &Said,
    refused: &[RefusedFile],
    files: u32,
) -> Result<Formed, AllocError>
    requires entries { AreEntries (map plain (seen said.now.entries.items)) }
    ensures { IfOk result (λ f. (S : graph.Session) (cancelled : List Label) → ArePartsOf S cancelled (record { texts = names.now; values = outlines said.now.closed.items; entries = seen said.now.entries.items; refused = all_refused refused.now }) → IsFormedTable S cancelled names.now (forks said.now.duties.items) (seen said.now.entries.items) extent.LastLine files f.text f.clean) }
{
    let mut statuses: Vec<RowStatus> = Vec::new(alloc);
    put_table(
        alloc,
        &mut statuses,
        names,
        said.closed.as_slice(),
        said.entries.as_slice(),
        refused,
    )?;
    let clean = are_good_statuses(statuses.as_slice());
    let text = last_line(alloc, files, statuses.as_slice())?;
    Ok(Formed { text, clean })
}

/// The last line of the table of these rows.
fn last_line_of(alloc: Global, files: u32, rows: &[Row]) -> Result<Text, AllocError>
    ensures { IfOk result (λ text. text ≡ total_line files rows.now) }
{
    let mut statuses = Vec::new(alloc);
    for row in rows {
        statuses.push(row.status)?;
    }
    last_line(alloc, files, statuses.as_slice())
}

/// A table's text, each row behind the place at which its command stands.
fn placed_text(
    alloc: Global,
    theories: &[Scan],
    refused: &[RefusedScan],
    files: u32,
    rows: &[Row],
) -> Result<Text, AllocError>
    ensures { IfOk result (λ text. text ≡ places_text (seen_scans theories.now) (seen_refusals refused.now) files rows.now) }
{
    let mut text = Vec::new(alloc);
    push_lines(alloc, &mut text, theories, refused, rows)?;
    text.extend_from_slice(last_line_of(alloc, files, rows)?.bytes())?;
    Ok(Text::from(text))
}

/// The text of these rows, and whether each is declared or proved.
fn with_rows(text: Text, rows: &[Row]) -> Formed
    ensures { IsTextOfRows rows.now text result.text result.clean }
{
    Formed {
        text,
        clean: are_good(rows),
    }
}

/// The text of a table with the places of its rows.
fn placed(
    alloc: Global,
    theories: &[Scan],
    refused: &[RefusedScan],
    files: u32,
    rows: &[Row],
) -> Result<Formed, AllocError>
    ensures { IfOk result (λ f. IsTextOfRows rows.now (places_text (seen_scans theories.now) (seen_refusals refused.now) files rows.now) f.text f.clean) }
{
    let text = placed_text(alloc, theories, refused, files, rows)?;
    Ok(with_rows(text, rows))
}

/// The whole text of the table, each row behind the place at which its command stands in these theories and refused files.
fn form_placed(
    alloc: Global,
    names: &Names,
    said: &Said,
    refused: &[RefusedFile],
    files: u32,
    theories: &[Scan],
    scans: &[RefusedScan],
) -> Result<Formed, AllocError>
    requires entries { AreEntries (map plain (seen said.now.entries.items)) }
    ensures { IfOk result (λ f. (S : graph.Session) (cancelled : List Label) → ArePartsOf S cancelled (record { texts = names.now; values = outlines said.now.closed.items; entries = seen said.now.entries.items; refused = all_refused refused.now }) → IsFormedTable S cancelled names.now (forks said.now.duties.items) (seen said.now.entries.items) (extent.Placed theories.entry scans.entry) files f.text f.clean) }
{
    let rows = rows_of(alloc, names, said, refused)?;
    placed(alloc, theories, scans, files, rows.as_slice())
}

/// What is said of the lemma with this full name.
fn form_axioms(
    alloc: Global,
    names: &NamesByBase,
    said: &Said,
    refused: &[RefusedFile],
    files: u32,
    name: &Text,
) -> Result<Formed, AllocError>
    requires entries { AreEntries (map plain (seen said.now.entries.items)) }
    requires premises { ArePremises names.now (forks said.now.duties.items) (seen said.now.entries.items) }
    ensures { IfOk result (λ f. (S : graph.Session) (cancelled : List Label) → ArePartsOf S cancelled (record { texts = names.now; values = outlines said.now.closed.items; entries = seen said.now.entries.items; refused = all_refused refused.now }) → IsFormedTable S cancelled names.now (forks said.now.duties.items) (seen said.now.entries.items) (extent.Axioms name.entry) files f.text f.clean) }
{
    let rows = rows_of(alloc, names.names(), said, refused)?;
    axioms_of(
        alloc,
        names,
        said.entries.as_slice(),
        said.duties.as_slice(),
        rows.as_slice(),
        name,
    )
}

/// The graph of the session, whose theories have these names.
fn form_graph(
    alloc: Global,
    names: &NamesByBase,
    said: &Said,
    refused: &[RefusedFile],
    files: u32,
    theories: &[Text],
) -> Result<Formed, AllocError>
    requires entries { AreEntries (map plain (seen said.now.entries.items)) }
    requires premises { ArePremises names.now (forks said.now.duties.items) (seen said.now.entries.items) }
    ensures { IfOk result (λ f. (S : graph.Session) (cancelled : List Label) → ArePartsOf S cancelled (record { texts = names.now; values = outlines said.now.closed.items; entries = seen said.now.entries.items; refused = all_refused refused.now }) → IsFormedTable S cancelled names.now (forks said.now.duties.items) (seen said.now.entries.items) (extent.Graph theories.entry) files f.text f.clean) }
{
    let rows = rows_of(alloc, names.names(), said, refused)?;
    graph_of(
        alloc,
        names,
        said.entries.as_slice(),
        said.duties.as_slice(),
        rows.as_slice(),
        theories,
    )
}

/// What is asked for of the table of what was said.
fn form_said(
    alloc: Global,
    names: &NamesByBase,
    said: &Said,
    refused: &[RefusedFile],
    files: u32,
    extent: Extent<'_>,
) -> Result<Formed, AllocError>
    requires entries { AreEntries (map plain (seen said.now.entries.items)) }
    requires premises { ArePremises names.now (forks said.now.duties.items) (seen said.now.entries.items) }
    ensures { IfOk result (λ f. (S : graph.Session) (cancelled : List Label) → ArePartsOf S cancelled (record { texts = names.now; values = outlines said.now.closed.items; entries = seen said.now.entries.items; refused = all_refused refused.now }) → IsFormedTable S cancelled names.now (forks said.now.duties.items) (seen said.now.entries.items) extent.entry files f.text f.clean) }
{
    match extent {
        Extent::Whole => form_whole(alloc, names.names(), said, refused, files),
        Extent::LastLine => form_last_line(alloc, names.names(), said, refused, files),
        Extent::Placed {
            theories,
            refused: scans,
        } => form_placed(alloc, names.names(), said, refused, files, theories, scans),
        Extent::Axioms { name } => form_axioms(alloc, names, said, refused, files, name),
        Extent::Graph { theories } => form_graph(alloc, names, said, refused, files, theories),
    }
}

/// What is asked for of the table that the session comes to on this board.
pub(crate) fn form(
    alloc: Global,
    work: &Checking,
    board: &Closed<Checking>,
    refused: &[RefusedFile],
    files: u32,
    extent: Extent<'_>,
) -> Result<Formed, AllocError>
    requires session { board.now.session ≡ work.now }
    requires finished { IsFinished board.now.core }
    ensures { IfOk result (λ f. (S : graph.Session) → S.names ≡ work.now.texts → S.theories ≡ work.now.theories → all_refused refused.now ≡ map shown S.refused → S.files ≡ files → IsFormed S (board.now.core).promises extent.entry f.text f.clean) }
{
    work.is_loaded_session();
    let said = said_by(work, board)?;
    let formed = form_said(alloc, work.names(), &said, refused, files, extent)?;
    Ok(formed)
}

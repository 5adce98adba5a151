//! What is said of a lemma: the rows of what it cites, of the failed lemmas that it reaches, and its own.
ghost use Rattle.std.specs.Prelude.{◌≡◌, ◌≢◌, ◌↔◌, ◌++◌, ℕ, IsTrue, IfOk, OnOk, MatchOption, None, Some, length, map};
ghost use Rattle.pure_lookup.specs.Laws.{IsInSession};
ghost use Rattle.pure_order_tables.specs.Rows.{Holds};
ghost use Rattle.pure_print.specs.RowText.{row_text};
ghost use Rattle.pure_promise_fates.specs.Entries.{AreEntries};
ghost use Rattle.pure_table.specs.Promise.Seen.{seen, reported};
ghost use Rattle.pure_citations.specs.Cited.{forks, AreInSession, AreBeside};
ghost use Rattle.pure_citations.specs.Heads.{IsPut, IsTextOf};
ghost use Rattle.pure_citations.specs.Listed as spec;
ghost use Rattle.pure_citations.specs.Listed.{IsCitedFor, IsFaultFor, IsFailedRow, IsListed, IsListing, IsSaidOf};

use crate::cited::cited_axioms;
use crate::faults::reached_faults;
use crate::heads::{holds_text, is_cited_row, put_line};
use pure_print::{Row, RowStatus};
use pure_table::declare::Duty;
use pure_table::promise::Entry;
use pure_text::Text;
use pure_typ::{Names, NamesByBase};
use std::alloc::{AllocError, Global};
use std::sync::Arc;

/// What is said of a lemma, and whether it is proved.
#[derive(Drop)]
pub struct Listing {
    pub text: Text,
    pub clean: bool,
}

/// Whether the row is that of a lemma whose statement stands.
fn is_lemma(row: &Row) -> bool
    ensures { result ≡ spec.is_lemma row.now.status }
{
    match row.status {
        RowStatus::Declared => false,
        RowStatus::Refused => false,
        RowStatus::Proved => true,
        RowStatus::Failed => true,
        RowStatus::Tainted => true,
        RowStatus::Cancelled => true,
        RowStatus::Unsettled => true,
    }
}

/// Whether the row is that of a proved lemma.
fn is_proved(row: &Row) -> bool
    ensures { result ≡ spec.is_proved row.now.status }
{
    match row.status {
        RowStatus::Declared => false,
        RowStatus::Refused => false,
        RowStatus::Proved => true,
        RowStatus::Failed => false,
        RowStatus::Tainted => false,
        RowStatus::Cancelled => false,
        RowStatus::Unsettled => false,
    }
}

/// Whether the row is that of a failed lemma.
fn is_failed(row: &Row) -> bool
    ensures { IsTrue result ↔ (row.now.status ≡ RowStatus.Failed) }
{
    match row.status {
        RowStatus::Declared => false,
        RowStatus::Refused => false,
        RowStatus::Proved => false,
        RowStatus::Failed => true,
        RowStatus::Tainted => false,
        RowStatus::Cancelled => false,
        RowStatus::Unsettled => false,
    }
}

/// Whether the row is that of the lemma with this full name.
fn is_own(row: &Row, name: &[u8]) -> bool
    ensures { result ≡ spec.is_own name.now row.now }
{
    is_lemma(row) && row.head.bytes() == name
}

/// The row of the lemma with this full name.
fn own_row<'r>(rows: &'r [Row], name: &[u8]) -> Option<&'r Row>
    ensures { MatchOption result (spec.own_row name.now rows.entry.now ≡ None) (λ r. spec.own_row name.now rows.entry.now ≡ Some r.now) }
{
    for row in rows {
        if is_own(row, name) {
            return Some(row);
        }
    }
    None
}

/// Whether the row's head is another name.
fn is_other(row: &Row, name: &[u8]) -> bool
    ensures { IsTrue result ↔ (row.now.head ≢ name.now) }
{
    row.head.bytes() != name
}

/// Whether the row is that of a failed lemma of another name, which the set holds.
fn is_failed_row(names: &Names, faults: &[u64], name: &[u8], row: &Row) -> bool
    ensures { IsTrue result ↔ IsFailedRow names.now (Holds faults.now) name.now row.now }
{
    is_failed(row) && is_other(row, name) && holds_text(names, faults, row.head.bytes())
}

/// Whether the row is listed before that of the lemma with this full name, where the sets hold what it cites and the failed
/// lemmas that it reaches.
fn is_listed(
    alloc: Global,
    names: &Names,
    cited: &[u64],
    faults: &[u64],
    name: &[u8],
    row: &Row,
) -> Result<bool, AllocError>
    ensures { IfOk result (λ is. IsTrue is ↔ IsListed names.now (Holds cited.now) (Holds faults.now) name.now row.now) }
{
    let is_cited = is_cited_row(alloc, names, cited, row)?;
    Ok(is_cited || is_failed_row(names, faults, name, row))
}

/// Puts the line of the row behind the text, if the row is listed.
fn put_if_listed(
    alloc: Global,
    names: &Names,
    cited: &[u64],
    faults: &[u64],
    name: &[u8],
    text: &mut Vec<u8>,
    row: &Row,
) -> Result<(), AllocError>
    ensures { OnOk result (IsPut (IsListed names.now (Holds cited.now) (Holds faults.now) name.now row.now) text.old.items (row_text row.now) text.new.items) }
{
    if is_listed(alloc, names, cited, faults, name, row)? {
        put_line(alloc, text, row)?;
        return Ok(());
    }
    Ok(())
}

/// The lines of the rows that are listed, in the order of the table.
fn listed_text(
    alloc: Global,
    names: &Names,
    cited: &[u64],
    faults: &[u64],
    name: &[u8],
    rows: &[Row],
) -> Result<Vec<u8>, AllocError>
    ensures { IfOk result (λ text. IsTextOf row_text (IsListed names.now (Holds cited.now) (Holds faults.now) name.now) rows.now text.items) }
{
    let mut text = Vec::new(alloc);
    for row in rows {
        put_if_listed(alloc, names, cited, faults, name, &mut text, row)?;
    }
    Ok(text)
}

/// The axioms that the lemma with this full name cites, as a row of bits.
fn cited_for(
    alloc: Global,
    names: &NamesByBase,
    entries: &[Entry],
    duties: &[Arc<Duty>],
    name: &[u8],
) -> Result<Vec<u64>, AllocError>
    requires entries { AreEntries (map reported entries.now) }
    requires session { AreInSession names.now (forks duties.now) }
    requires beside { AreBeside (forks duties.now) (seen entries.now) }
    requires long { length duties.now ≡ length entries.now }
    ensures { IfOk result (λ row. (n : ℕ) → Holds row.items n ↔ IsCitedFor names.now (forks duties.now) (seen entries.now) name.now n) }
{
    names.are_session_texts();
    match names.names().find(name) {
        Some(number) => cited_axioms(alloc, names, entries, duties, number),
        None => Ok(Vec::new(alloc)),
    }
}

/// The failed lemmas that the lemma with this full name reaches, itself among them, as a row of bits.
fn faults_for(
    alloc: Global,
    names: &NamesByBase,
    entries: &[Entry],
    name: &[u8],
) -> Result<Vec<u64>, AllocError>
    requires { AreEntries (map reported entries.now) }
    ensures { IfOk result (λ row. (n : ℕ) → Holds row.items n ↔ IsFaultFor names.now (seen entries.now) name.now n) }
{
    names.are_session_texts();
    match names.names().find(name) {
        Some(number) => reached_faults(alloc, entries, number),
        None => Ok(Vec::new(alloc)),
    }
}

/// The rows that are listed before that of the lemma with this full name, as lines.
fn lines_for(
    alloc: Global,
    names: &NamesByBase,
    entries: &[Entry],
    duties: &[Arc<Duty>],
    rows: &[Row],
    name: &[u8],
) -> Result<Vec<u8>, AllocError>
    requires entries { AreEntries (map reported entries.now) }
    requires session { AreInSession names.now (forks duties.now) }
    requires beside { AreBeside (forks duties.now) (seen entries.now) }
    requires long { length duties.now ≡ length entries.now }
    ensures { IfOk result (λ text. IsTextOf row_text (IsListed names.now (IsCitedFor names.now (forks duties.now) (seen entries.now) name.now) (IsFaultFor names.now (seen entries.now) name.now) name.now) rows.now text.items) }
{
    let cited = cited_for(alloc, names, entries, duties, name)?;
    let faults = faults_for(alloc, names, entries, name)?;
    let text = listed_text(
        alloc,
        names.names(),
        cited.as_slice(),
        faults.as_slice(),
        name,
        rows,
    )?;
    Ok(text)
}

/// What is said of the lemma with this full name, whose own row is given.
fn with_own(
    alloc: Global,
    names: &NamesByBase,
    entries: &[Entry],
    duties: &[Arc<Duty>],
    rows: &[Row],
    name: &[u8],
    own: &Row,
) -> Result<Listing, AllocError>
    requires entries { AreEntries (map reported entries.now) }
    requires session { AreInSession names.now (forks duties.now) }
    requires beside { AreBeside (forks duties.now) (seen entries.now) }
    requires long { length duties.now ≡ length entries.now }
    ensures text { IfOk result (λ said. IsListing names.now (forks duties.now) (seen entries.now) rows.now name.now own.now said.text) }
    ensures clean { IfOk result (λ said. said.clean ≡ spec.is_proved own.now.status) }
{
    let mut text = lines_for(alloc, names, entries, duties, rows, name)?;
    put_line(alloc, &mut text, own)?;
    Ok(Listing {
        text: Text::from(text),
        clean: is_proved(own),
    })
}

/// What is said where no lemma has the name.
#[tactic(auto, unfolding(crate::specs::Listed::no_lemma))]
fn no_lemma(alloc: Global) -> Result<Text, AllocError>
    ensures { IfOk result (λ text. text ≡ spec.no_lemma) }
{
    Text::make(alloc, b"no lemma\n")
}

/// What is said of the lemma with this full name, of lemmas in order of their labels, what became of each, and the rows of
/// the table: the rows of the axioms and definitions that it cites and of the failed lemmas that it reaches, in the order of
/// the table, and last its own row; or that there is no lemma of the name whose statement stands.
///
/// # Errors
///
/// Want of memory alone.
pub fn said_of(
    alloc: Global,
    names: &NamesByBase,
    entries: &[Entry],
    duties: &[Arc<Duty>],
    rows: &[Row],
    name: &[u8],
) -> Result<Listing, AllocError>
    requires entries { AreEntries (map reported entries.now) }
    requires session { AreInSession names.now (forks duties.now) }
    requires beside { AreBeside (forks duties.now) (seen entries.now) }
    requires long { length duties.now ≡ length entries.now }
    ensures { IfOk result (λ said. IsSaidOf names.now (forks duties.now) (seen entries.now) rows.now name.now said.text said.clean) }
{
    match own_row(rows, name) {
        Some(own) => with_own(alloc, names, entries, duties, rows, name, own),
        None => {
            let text = no_lemma(alloc)?;
            Ok(Listing { text, clean: false })
        }
    }
}

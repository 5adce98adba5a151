//! Rows that declare given axioms and definitions.
ghost use Rattle.std.specs.Prelude.{◌≡◌, ◌≢◌, ◌↔◌, ◌++◌, ℕ, List, IsTrue, MatchOption, IfOk, OnOk};
ghost use Rattle.pure_print.specs.RowText.{row_text};
ghost use Rattle.pure_citations.specs.Heads.{definition_end, HoldsText, HoldsHead, IsCitedRow};

use crate::rows::holds;
use pure_print::{Row, RowStatus, print_row};
use pure_typ::{Name, Names};
use std::alloc::{AllocError, Global};

/// What stands behind the word, where the head begins with it.
pub(crate) fn behind<'h>(head: &'h [u8], word: &[u8]) -> Option<&'h [u8]>
    ensures { MatchOption result ((rest : List ℕ) → head.now ≢ word.now ++ rest) (λ rest. head.now ≡ word.now ++ rest.now) }
{
    if head.len() < word.len() {
        return None;
    }
    if &head[..word.len()] == word {
        return Some(&head[word.len()..]);
    }
    None
}

/// The place of the name in a row.
fn place_of(name: Name) -> usize
    ensures { result ≡ name }
{
    name.0 as usize
}

/// Whether the row holds the name with this text.
pub(crate) fn holds_text(names: &Names, row: &[u64], text: &[u8]) -> bool
    ensures { IsTrue result ↔ HoldsText names.now row.now text.now }
{
    names.are_session_texts();
    match names.find(text) {
        Some(name) => holds(row, place_of(name)),
        None => false,
    }
}

/// The name of the fact that defines the constant.
#[tactic(auto, unfolding(crate::specs::Heads::definition_end))]
pub(crate) fn fact_of(alloc: Global, constant: &[u8]) -> Result<Vec<u8>, AllocError>
    ensures { IfOk result (λ full. full.items ≡ constant.now ++ definition_end) }
{
    let mut full = Vec::from_slice(alloc, constant)?;
    full.extend_from_slice(b"_def")?;
    Ok(full)
}

/// Whether the head is that of an axiom or a definition whose name the row holds.
fn holds_head(alloc: Global, names: &Names, row: &[u64], head: &[u8]) -> Result<bool, AllocError>
    ensures { IfOk result (λ held. IsTrue held ↔ HoldsHead names.now row.now head.now) }
{
    if let Some(full) = behind(head, b"axiom ") {
        return Ok(holds_text(names, row, full));
    }
    if let Some(constant) = behind(head, b"definition ") {
        let full = fact_of(alloc, constant)?;
        return Ok(holds_text(names, row, full.as_slice()));
    }
    Ok(false)
}

/// Whether the row declares something.
fn is_declared(row: &Row) -> bool
    ensures { IsTrue result ↔ (row.now.status ≡ RowStatus.Declared) }
{
    match row.status {
        RowStatus::Declared => true,
        RowStatus::Refused => false,
        RowStatus::Proved => false,
        RowStatus::Failed => false,
        RowStatus::Tainted => false,
        RowStatus::Cancelled => false,
        RowStatus::Unsettled => false,
    }
}

/// Whether the row declares an axiom or a definition whose name the set holds.
pub(crate) fn is_cited_row(
    alloc: Global,
    names: &Names,
    cited: &[u64],
    row: &Row,
) -> Result<bool, AllocError>
    ensures { IfOk result (λ is. IsTrue is ↔ IsCitedRow names.now cited.now row.now) }
{
    let held = holds_head(alloc, names, cited, row.head.bytes())?;
    Ok(is_declared(row) && held)
}

/// Puts the line of the row behind the text.
pub(crate) fn put_line(alloc: Global, text: &mut Vec<u8>, row: &Row) -> Result<(), AllocError>
    ensures { OnOk result (text.new.items ≡ text.old.items ++ row_text row.now) }
{
    let line = print_row(alloc, row)?;
    text.extend_from_slice(line.bytes())?;
    Ok(())
}

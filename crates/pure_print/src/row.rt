//! Rows as they are printed.
ghost use Rattle.std.specs.Prelude.{◌≡◌, ◌++◌, IfOk, OnOk};
ghost use Rattle.pure_print.specs.RowText as spec;

use pure_text::Text;
use std::alloc::{AllocError, Global};

/// What became of a command or of a theory.
#[derive(Clone, Copy, Debug, PartialEq, Eq)]
pub enum RowStatus {
    Declared,
    Refused,
    Proved,
    Failed,
    Tainted,
    Cancelled,
    Unsettled,
}

/// A row of the table: its status, and what stands behind the status word in two parts.
#[derive(Debug, Drop)]
pub struct Row {
    pub status: RowStatus,
    pub head: Text,
    pub tail: Text,
}

impl Row {
    /// An equal row.
    pub fn copy(&self, alloc: Global) -> Result<Row, AllocError>
        ensures { IfOk result (λ copy. copy ≡ self.now) }
    {
        let head = self.head.copy(alloc)?;
        let tail = self.tail.copy(alloc)?;
        Ok(Row {
            status: self.status,
            head,
            tail,
        })
    }
}

/// The line of a row, with its line feed.
pub fn print_row(alloc: Global, row: &Row) -> Result<Text, AllocError>
    ensures { IfOk result (λ text. text ≡ spec.row_text row.now) }
{
    let mut text = Vec::new(alloc);
    push_row(&mut text, row)?;
    Ok(Text::from(text))
}

/// The word of a status.
#[tactic(auto, unfolding(crate::specs::RowText::status_text))]
pub fn status_word(status: RowStatus) -> &'static [u8]
    ensures { result.now ≡ spec.status_text status }
{
    match status {
        RowStatus::Declared => b"declared",
        RowStatus::Refused => b"refused",
        RowStatus::Proved => b"proved",
        RowStatus::Failed => b"failed",
        RowStatus::Tainted => b"tainted",
        RowStatus::Cancelled => b"cancelled",
        RowStatus::Unsettled => b"unsettled",
    }
}

pub(crate) fn push_row(text: &mut Vec<u8>, row: &Row) -> Result<(), AllocError>
    ensures { OnOk result (text.new.items ≡ text.old.items ++ spec.row_text row.now) }
{
    text.extend_from_slice(status_word(row.status))?;
    text.push(b' ')?;
    text.extend_from_slice(row.head.bytes())?;
    text.extend_from_slice(row.tail.bytes())?;
    text.extend_from_slice(b"\n")?;
    Ok(())
}

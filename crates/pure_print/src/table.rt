//! The table as it is printed: its text grows row by row, and its last line follows from the statuses of the rows.
ghost use Rattle.std.specs.Prelude.{◌≡◌, ◌++◌, ◌∷◌, [], List, IfOk, OnOk, map};
ghost use Rattle.std.specs.List.{count_by, flat_map};
ghost use Rattle.pure_print.specs.declared.row.Row as print;
ghost use Rattle.pure_print.specs.RowText.{status_place, total_line, table_text};
ghost use Rattle.pure_print.specs.Growing as spec;
ghost use Rattle.pure_print.specs.Growing.{HoldsRows};

use crate::number::push_number;
use crate::row::{Row, RowStatus, push_row, status_word};
use pure_text::Text;
use std::alloc::{AllocError, Global};

/// The statuses in the order of the last line.
const STATUSES: [RowStatus; 7] = [
    RowStatus::Declared,
    RowStatus::Refused,
    RowStatus::Proved,
    RowStatus::Failed,
    RowStatus::Tainted,
    RowStatus::Cancelled,
    RowStatus::Unsettled,
];

/// The text of some rows of a table, in order, and their statuses. Of each row only its bytes and its status are held.
#[derive(Debug, Drop)]
pub struct TableText {
    pub text: Vec<u8>,
    pub statuses: Vec<RowStatus>,
}

impl TableText {
    /// The text of no rows.
    pub fn empty(alloc: Global) -> TableText
        ensures { HoldsRows result [] }
    {
        TableText {
            text: Vec::new(alloc),
            statuses: Vec::new(alloc),
        }
    }

    /// Puts the row behind the others.
    pub fn put(&mut self, row: &Row) -> Result<(), AllocError>
        ensures { OnOk result ((rows : List print.Row) → HoldsRows self.old rows → HoldsRows self.new (rows ++ row.now ∷ [])) }
    {
        push_row(&mut self.text, row)?;
        self.statuses.push(row.status)?;
        Ok(())
    }

    /// The text of the table of these rows, with its last line.
    pub fn finish(self, theories: u32) -> Result<Text, AllocError>
        ensures { IfOk result (λ text. (rows : List print.Row) → HoldsRows self rows → text ≡ table_text theories rows) }
    {
        let TableText { mut text, statuses } = self;
        push_total(&mut text, theories, &statuses)?;
        Ok(Text::from(text))
    }
}

/// The text of the table: a line for each row, and the last line with the number of theory files and of the rows of each
/// status.
pub fn print_table(alloc: Global, theories: u32, rows: &[Row]) -> Result<Text, AllocError>
    ensures { IfOk result (λ text. text ≡ table_text theories rows.now) }
{
    let mut table = TableText::empty(alloc);
    for row in rows {
        table.put(row)?;
    }
    table.finish(theories)
}

/// The last line of the table of rows with these statuses.
pub fn last_line(alloc: Global, theories: u32, statuses: &[RowStatus]) -> Result<Text, AllocError>
    ensures { IfOk result (λ text. (rows : List print.Row) → statuses.now ≡ map print.Row.status rows → text ≡ total_line theories rows) }
{
    let mut text = Vec::new(alloc);
    push_total(&mut text, theories, statuses)?;
    Ok(Text::from(text))
}

fn status_place(status: RowStatus) -> u8
    ensures { result ≡ status_place status }
{
    match status {
        RowStatus::Declared => 0,
        RowStatus::Refused => 1,
        RowStatus::Proved => 2,
        RowStatus::Failed => 3,
        RowStatus::Tainted => 4,
        RowStatus::Cancelled => 5,
        RowStatus::Unsettled => 6,
    }
}

/// Whether the other status is this one.
fn is_status(status: RowStatus, other: RowStatus) -> bool
    ensures { result ≡ spec.is_status status other }
{
    status_place(other) == status_place(status)
}

fn count(status: RowStatus, given: &[RowStatus]) -> usize
    ensures { result ≡ count_by (spec.is_status status) given.now }
{
    given
        .iter()
        .filter(|other| is_status(status, **other))
        .count()
}

fn push_count(text: &mut Vec<u8>, status: RowStatus, given: &[RowStatus]) -> Result<(), AllocError>
    ensures { OnOk result (text.new.items ≡ text.old.items ++ spec.status_count_text given.now status) }
{
    text.extend_from_slice(b", ")?;
    push_number(text, count(status, given))?;
    text.push(b' ')?;
    text.extend_from_slice(status_word(status))?;
    Ok(())
}

fn push_counts(
    text: &mut Vec<u8>,
    statuses: &[RowStatus],
    given: &[RowStatus],
) -> Result<(), AllocError>
    ensures { OnOk result (text.new.items ≡ text.old.items ++ flat_map (spec.status_count_text given.now) statuses.now) }
{
    for status in statuses {
        push_count(text, *status, given)?;
    }
    Ok(())
}

#[tactic(auto, unfolding(crate::specs::RowText::total_text, crate::specs::RowText::theories_text))]
fn push_total(text: &mut Vec<u8>, theories: u32, given: &[RowStatus]) -> Result<(), AllocError>
    ensures { OnOk result (text.new.items ≡ text.old.items ++ spec.statuses_line theories given.now) }
{
    text.extend_from_slice(b"total: ")?;
    push_number(text, theories as usize)?;
    text.extend_from_slice(b" theories")?;
    push_counts(text, &STATUSES, given)?;
    text.push(b'\n')?;
    Ok(())
}

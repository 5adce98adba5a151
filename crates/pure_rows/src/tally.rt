//! How many rows of a file were held against their subject, and how many of them don't hold.
ghost use Rattle.std.specs.Prelude.{◌≡◌, ◌↔◌, ◌≤◌, true, false, IsTrue, IsNone, IfSome};
ghost use Rattle.std.specs.Process.{exit_status};
ghost use Rattle.pure_rows.specs.Fields.{IsRow};
ghost use Rattle.pure_rows.specs.Counts as spec;

use crate::outcome::Outcome;
use crate::row::{Row, read_row};
use std::alloc::Global;
use std::marker::Model;
use std::process::ExitCode;
use std::rt::Files;

/// The rows of a file that were held against their subject. Contracts see the counts of lines, of rows and of those that failed.
#[derive(Drop)]
pub struct Tally<'n> {
    file: &'n str,
    line: u64,
    rows: u64,
    failed: u64,
}

impl<'n> Model for Tally<'n> {
    ghost use Rattle.pure_rows.specs.Counts.{Counts};

    ghost Value = { Counts };

    ghost view = { λ t. record { line = t.line; rows = t.rows; failed = t.failed } };
}

/// Whether the line is no row: it is empty or a comment.
fn is_passed(line: &[u8]) -> bool
    ensures { result ≡ spec.is_passed line.now }
{
    match line.first() {
        Some(first) => *first == b'#',
        None => true,
    }
}

impl<'n> Tally<'n> {
    /// Of the file with this name, before its first line.
    pub fn begin(file: &'n str) -> Tally<'n>
        ensures { result ≡ record { line = 0; rows = 0; failed = 0 } }
    {
        Tally {
            file,
            line: 0,
            rows: 0,
            failed: 0,
        }
    }

    /// The row of the next line. None is given where it is none: it is empty, a comment, or can't be read, which is counted.
    pub fn next_row<R: Files + Print + AllocGlobal>(
        &mut self,
        rt: &R,
        alloc: Global,
        line: &[u8],
    ) -> Option<Row>
        ensures passed { spec.is_passed line.now ≡ true → IsNone result × (self.new ≡ spec.next_line self.old) }
        ensures read { IfSome result (λ row. IsRow line.now row × (self.new ≡ spec.next_line self.old)) }
        ensures unread { spec.is_passed line.now ≡ false → IsNone result → self.new ≡ spec.counted (spec.next_line self.old) Outcome.Unreadable }
    {
        self.line = self.line.saturating_add(1);
        if is_passed(line) {
            return None;
        }
        match read_row(alloc, line) {
            Ok(Some(row)) => return Some(row),
            Ok(None) => self.add(rt, Outcome::Unreadable),
            Err(_) => self.add(rt, Outcome::Memory),
        }
        None
    }

    /// Counts the row of the last line; prints its line where it doesn't hold.
    pub fn add<R: Files + Print + AllocGlobal>(&mut self, rt: &R, outcome: Outcome)
        ensures { self.new ≡ spec.counted self.old outcome }
    {
        self.rows = self.rows.saturating_add(1);
        if let Some(complaint) = outcome.complaint() {
            self.failed = self.failed.saturating_add(1);
            let _ = println!(rt; "{}:{}: {complaint}", self.file, self.line);
        }
    }

    /// The exit code, where the last line was printed or wasn't.
    fn exit_code(&self, is_printed: bool) -> ExitCode
        ensures { (exit_status result ≡ 0) ↔ (IsTrue is_printed × (1 ≤ self.now.rows) × (self.now.failed ≡ 0)) }
    {
        if is_printed && self.rows > 0 && self.failed == 0 {
            ExitCode::SUCCESS
        } else {
            ExitCode::FAILURE
        }
    }

    /// Prints how many rows were held against their subject. Fails where one doesn't hold, or there was none.
    pub fn end<R: Files + Print + AllocGlobal>(self, rt: &R) -> ExitCode
        ensures { exit_status result ≡ 0 → (1 ≤ self.entry.rows) × (self.entry.failed ≡ 0) }
    {
        let told = println!(rt; "{}: {} rows, {} failed", self.file, self.rows, self.failed);
        self.exit_code(told.is_ok())
    }
}

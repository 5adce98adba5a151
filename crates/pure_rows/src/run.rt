//! Files of rows, held against what they speak of.
ghost use Rattle.std.specs.Prelude.{◌≡◌, ◌≤◌, if◌then◌else◌};
ghost use Rattle.std.specs.Process.{exit_status};
ghost use Rattle.pure_rows.specs.Counts as spec;

use crate::outcome::Outcome;
use crate::parts::parts;
use crate::row::Row;
use crate::tally::Tally;
use std::alloc::Global;
use std::fs;
use std::process::ExitCode;
use std::rt::Files;

/// What rows speak of.
pub trait Subject {
    /// What comes of the row.
    fn outcome<R: Files + Print + AllocGlobal>(&self, rt: &R, alloc: Global, row: &Row) -> Outcome;
}

/// The text of the file; where it can't be read, that is printed.
pub fn read_file<R: Files + Print + AllocGlobal>(rt: &R, file: &str) -> Option<Vec<u8>> {
    match fs::read(rt, file) {
        Ok(text) => Some(text),
        Err(_) => {
            let _ = println!(rt; "{file}: can't be read");
            None
        }
    }
}

/// Counts the row that the line is, if it is one, by what comes of it.
fn hold_line<R: Files + Print + AllocGlobal, S: Subject>(
    rt: &R,
    tally: &mut Tally<'_>,
    line: &[u8],
    subject: &S,
)
    ensures rows { tally.new.rows ≡ (if spec.is_passed line.now then tally.old.rows else spec.one_more tally.old.rows) }
    ensures read { tally.new.failed ≡ 0 → (tally.old.failed ≡ 0) × spec.IsRead line.now }
{
    let alloc = rt.alloc();
    if let Some(row) = tally.next_row(rt, alloc, line) {
        tally.add(rt, subject.outcome(rt, alloc, &row));
    }
}

/// Holds each row of the file's text against the subject. Fails where one doesn't hold, or where there is none.
pub fn hold_rows<R: Files + Print + AllocGlobal, S: Subject>(
    rt: &R,
    file: &str,
    text: &[u8],
    subject: &S,
) -> ExitCode
    ensures rows { exit_status result ≡ 0 → 1 ≤ spec.row_count (spec.lines_of text.now) }
    ensures read { exit_status result ≡ 0 → spec.AreRead (spec.lines_of text.now) }
{
    let Ok(lines) = parts(rt.alloc(), b'\n', text) else {
        let _ = println!(rt; "{file}: out of memory");
        return ExitCode::FAILURE;
    };
    let mut tally = Tally::begin(file);
    for line in &lines {
        hold_line(rt, &mut tally, line, subject);
    }
    tally.end(rt)
}

/// Holds each row of the file against the subject. Fails where one doesn't hold, where there is none, or the file can't be read.
pub fn run_rows<R: Files + Print + AllocGlobal, S: Subject>(
    rt: &R,
    file: &str,
    subject: &S,
) -> ExitCode {
    match read_file(rt, file) {
        Some(text) => hold_rows(rt, file, &text, subject),
        None => ExitCode::FAILURE,
    }
}

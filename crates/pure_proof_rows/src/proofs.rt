//! Rows of whole proofs.
ghost use Rattle.pure_text.specs.Lists.{Each};
ghost use Rattle.pure_theory_run.specs.Method.Outcome.{IsProvable};

use crate::advance::comes_to;
use crate::faults::fault;
use crate::lines::lines_of;
use crate::outcomes::Wanted;
use pure_rows::{Outcome, Row, Tally, number_of};
use pure_term::Name;
use pure_theory_run::declare::Duty;
use pure_typ::NamesByBase;
use std::alloc::{AllocError, Global};
use std::process::ExitCode;
use std::rt::Files;

/// Whether each of the fields is a number.
fn are_numbers(fields: &[Vec<u8>]) -> bool {
    for field in fields {
        if number_of(field).is_none() {
            return false;
        }
    }
    true
}

/// What the row wants of its lemma's proof.
fn read_wanted(row: &Row) -> Option<Wanted<'_>> {
    match row.field(0) {
        b"proved" if are_numbers(row.fields_from(3)) => Some(Wanted::Proved(row.fields_from(3))),
        b"failed" if row.len() == 5 => Some(Wanted::Fault(row.number(3)?, fault(row.field(4))?)),
        _ => None,
    }
}

/// Whether the text is the name's.
fn is_text(names: &NamesByBase, name: Name, text: &[u8]) -> bool {
    match names.names().text(name) {
        Some(own) => own == text,
        None => false,
    }
}

/// Whether the row's outcome comes of the lemma's proof; none where the row isn't that of this lemma, or can't be read.
fn holds(
    alloc: Global,
    names: &NamesByBase,
    duty: &Duty,
    row: &Row,
) -> Option<Result<bool, AllocError>>
    requires { IsProvable names.now duty.now }
{
    if !is_text(names, duty.name, row.field(1)) {
        return None;
    }
    let steps = row.number(2)?;
    let wanted = read_wanted(row)?;
    Some(comes_to(alloc, names, duty, steps, wanted))
}

/// What comes of the row of this lemma.
fn outcome_of(alloc: Global, names: &NamesByBase, duty: &Duty, row: &Row) -> Outcome
    requires { IsProvable names.now duty.now }
{
    match holds(alloc, names, duty, row) {
        Some(answer) => Outcome::of_answer(answer),
        None => Outcome::Unreadable,
    }
}

/// What comes of the row, which is that of the first of the lemmas, and those behind it.
fn turn<'d>(
    alloc: Global,
    names: &NamesByBase,
    duties: &'d [Duty],
    row: &Row,
) -> (Outcome, &'d [Duty])
    requires { Each (IsProvable names.now) duties.now }
    ensures { Each (IsProvable names.now) result.1.now }
{
    match duties.split_first() {
        Some((duty, rest)) => (outcome_of(alloc, names, duty, row), rest),
        None => (Outcome::Unreadable, duties),
    }
}

/// The file of the rows.
pub(crate) const FILE: &str = "proofs.rows";

/// The lemmas behind the line, whose row, if it has one, is counted.
fn read_line<'d, R: Files + Print + AllocGlobal>(
    rt: &R,
    names: &NamesByBase,
    tally: &mut Tally<'_>,
    duties: &'d [Duty],
    line: &[u8],
) -> &'d [Duty]
    requires { Each (IsProvable names.now) duties.now }
    ensures { Each (IsProvable names.now) result.now }
{
    match tally.next_row(rt, rt.alloc(), line) {
        Some(row) => {
            let (outcome, rest) = turn(rt.alloc(), names, duties, &row);
            tally.add(rt, outcome);
            rest
        }
        None => duties,
    }
}

/// The lemmas behind the last of the lines.
fn read_lines<'d, R: Files + Print + AllocGlobal>(
    rt: &R,
    names: &NamesByBase,
    tally: &mut Tally<'_>,
    duties: &'d [Duty],
    lines: &[&[u8]],
) -> &'d [Duty]
    requires { Each (IsProvable names.now) duties.now }
{
    let mut rest = duties;
    for line in lines {
        rest = read_line(rt, names, tally, rest, line);
    }
    rest
}

/// Holds each row against the proof of the lemma in its turn. A lemma that is left has no row, which is one that can't be read.
fn run_lines<R: Files + Print + AllocGlobal>(
    rt: &R,
    names: &NamesByBase,
    duties: &[Duty],
    lines: &[&[u8]],
) -> ExitCode
    requires { Each (IsProvable names.now) duties.now }
{
    let mut tally = Tally::begin(FILE);
    let left = read_lines(rt, names, &mut tally, duties, lines);
    if !left.is_empty() {
        tally.add(rt, Outcome::Unreadable);
    }
    tally.end(rt)
}

/// Holds each row of the text against the proof of the lemma in its turn.
pub(crate) fn run_duties<R: Files + Print + AllocGlobal>(
    rt: &R,
    names: &NamesByBase,
    duties: &[Duty],
    text: &[u8],
) -> ExitCode
    requires { Each (IsProvable names.now) duties.now }
{
    match lines_of(rt.alloc(), text) {
        Ok(lines) => run_lines(rt, names, duties, &lines),
        Err(_) => ExitCode::FAILURE,
    }
}

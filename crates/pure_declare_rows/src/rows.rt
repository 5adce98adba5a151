//! The rows of a file, one over what those before it leave.
use crate::commands::{declared, lemma_of};
use crate::facts::are_meant;
use crate::kept::{Kept, last_stage, put, put_forked};
use crate::lines::are_lines;
use crate::quotes::Quotes;
use crate::settings::{set_session, set_theory};
use pure_declare::{Declared, Note, may_declare};
use pure_rows::{Fault, Outcome, Row, Tally, read_file};
use pure_script::Command;
use pure_typ::Label;
use std::alloc::Global;
use std::mem;
use std::process::ExitCode;
use std::rt::Files;

/// The label of the next command.
fn next_label(kept: &Kept) -> Label {
    Label {
        theory: kept.theory,
        command: kept.command,
        part: 0,
    }
}

/// The row's lemma, and the place in the source behind its statements.
fn lemma_at(alloc: Global, kept: &Kept, row: &Row) -> Result<(Command, usize), Fault> {
    let mut quotes = Quotes::of(kept.source.as_slice(), kept.place);
    let command = lemma_of(alloc, &mut quotes, row.field(1), row.field(2))?;
    Ok((command, quotes.place()))
}

/// What the lemma leaves over the present stage.
fn left(alloc: Global, kept: &Kept, command: &Command) -> Result<Declared, Fault> {
    let stage = last_stage(&kept.stages)?;
    let label = next_label(kept);
    declared(alloc, stage, &kept.names, &kept.source, command, label)
}

/// Whether the notes have the row's lines. The stages before their forks are put behind the others.
fn holds_notes(alloc: Global, kept: &mut Kept, row: &Row, notes: &[Note]) -> Result<bool, Fault> {
    kept.first = kept.stages.len();
    put_forked(&mut kept.stages, notes)?;
    are_lines(alloc, kept.names.names(), notes, row.fields_from(3))
}

/// `lemma`: a name, names of haves, and the lines of the notes that the lemma leaves. The next stage is put behind the others.
fn lemma_row(alloc: Global, kept: &mut Kept, row: &Row) -> Result<bool, Fault> {
    let (command, place) = lemma_at(alloc, kept, row)?;
    let left = left(alloc, kept, &command);
    mem::forget(command);
    let Declared { stage, notes } = left?;
    let holds = holds_notes(alloc, kept, row, &notes);
    mem::forget(notes);
    put(&mut kept.stages, stage)?;
    kept.place = place;
    kept.command = kept.command.saturating_add(1);
    holds
}

/// `unnamed`: a name, and names of haves, of a lemma that may not be declared.
fn unnamed_row(alloc: Global, kept: &Kept, row: &Row) -> Result<bool, Fault> {
    let stage = last_stage(&kept.stages)?;
    let label = next_label(kept);
    let (command, _) = lemma_at(alloc, kept, row)?;
    let may = may_declare(alloc, stage, &kept.names, &kept.source, &command, label);
    mem::forget(command);
    Ok(!may?)
}

/// `fact`: a lemma, a written name, and what this means in the stages of the last row, in a proof of the lemma.
fn fact_row(alloc: Global, kept: &Kept, row: &Row) -> Result<bool, Fault> {
    let (lemma, written) = (row.field(1), row.field(2));
    are_meant(
        alloc,
        kept.last_stages(),
        &kept.names,
        lemma,
        written,
        row.fields_from(3),
    )
}

/// Whether the row sets something, or what it says is so.
fn holds(alloc: Global, kept: &mut Kept, row: &Row) -> Result<bool, Fault> {
    match (row.field(0), row.len()) {
        (b"session", 2) => set_session(alloc, kept, row.field(1))?,
        (b"theory", 3) => set_theory(alloc, kept, row.field(1), row.field(2))?,
        (b"lemma", _) => return lemma_row(alloc, kept, row),
        (b"unnamed", 3) => return unnamed_row(alloc, kept, row),
        (b"fact", _) => return fact_row(alloc, kept, row),
        _ => return Err(Fault::Unreadable),
    }
    Ok(true)
}

/// Holds each line's row against the calls.
fn hold_lines<R: Files + Print + AllocGlobal>(
    rt: &R,
    tally: &mut Tally<'_>,
    kept: &mut Kept,
    text: &[u8],
) {
    let alloc = rt.alloc();
    for line in text.split(|byte| *byte == b'\n') {
        if let Some(row) = tally.next_row(rt, alloc, line) {
            tally.add(rt, Outcome::of_test(holds(alloc, kept, &row)));
        }
    }
}

/// Holds each row of the file against the calls. Fails where one doesn't hold, where there is none, or the file can't be read.
pub(crate) fn run_haves<R: Files + Print + AllocGlobal>(rt: &R, file: &str) -> ExitCode {
    let Some(text) = read_file(rt, file) else {
        return ExitCode::FAILURE;
    };
    let Ok(mut kept) = Kept::empty(rt.alloc()) else {
        return ExitCode::FAILURE;
    };
    let mut tally = Tally::begin(file);
    hold_lines(rt, &mut tally, &mut kept, &text);
    mem::forget(kept);
    tally.end(rt)
}

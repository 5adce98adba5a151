//! The lines of notes.
use pure_declare::{Duty, Note};
use pure_print::{print_row, push_number, push_text_of_name, push_text_of_term};
use pure_rows::Fault;
use pure_typ::{Label, Names};
use std::alloc::{AllocError, Global};

/// Adds the label: its theory, its command and its part.
pub(crate) fn push_label(line: &mut Vec<u8>, label: Label) -> Result<(), AllocError> {
    push_number(line, label.theory as usize)?;
    line.push(b'.')?;
    push_number(line, label.command as usize)?;
    line.push(b'.')?;
    push_number(line, label.part as usize)
}

/// The line of a fork: its name, its label, the lemma that it is or stands in, and its statement.
fn fork_line(alloc: Global, names: &Names, duty: &Duty) -> Result<Vec<u8>, AllocError> {
    let mut line = Vec::new(alloc);
    line.extend_from_slice(b"fork ")?;
    push_text_of_name(&mut line, names, duty.name)?;
    line.push(b' ')?;
    push_label(&mut line, duty.label)?;
    line.extend_from_slice(b" in ")?;
    push_text_of_name(&mut line, names, duty.lemma)?;
    line.extend_from_slice(b": ")?;
    push_text_of_term(&mut line, names, &duty.prop)?;
    Ok(line)
}

/// Whether the note has this line: that of its row, without the line feed, or that of its fork.
fn is_line(alloc: Global, names: &Names, note: &Note, line: &[u8]) -> Result<bool, AllocError> {
    match note {
        Note::Row { row } => {
            let text = print_row(alloc, row)?;
            Ok(text.bytes().trim_ascii() == line)
        }
        Note::Forked { duty } => {
            let text = fork_line(alloc, names, duty)?;
            Ok(text.as_slice() == line)
        }
    }
}

/// Whether the notes have these lines, in this order and none more.
pub(crate) fn are_lines(
    alloc: Global,
    names: &Names,
    notes: &[Note],
    lines: &[Vec<u8>],
) -> Result<bool, Fault> {
    if notes.len() != lines.len() {
        return Ok(false);
    }
    for (note, line) in notes.iter().zip(lines.iter()) {
        if !is_line(alloc, names, note, line.as_slice())? {
            return Ok(false);
        }
    }
    Ok(true)
}

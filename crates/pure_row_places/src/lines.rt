//! Lines of rows with their places.
ghost use Rattle.std.specs.Prelude.{◌≡◌, ◌++◌, [], ◌∷◌, ◌≤◌, List, ℕ, IfOk, OnOk, drop, length, map, take};
ghost use Rattle.std.specs.Fmt.{decimal};
ghost use Rattle.pure_print.specs.RowText.{row_text};
ghost use Rattle.pure_print.specs.declared.row.Row as print;
ghost use Rattle.pure_places.specs.Seen.{seen_part, seen_command, seen_places};
ghost use Rattle.pure_places.specs.Parts as parts;
ghost use Rattle.pure_row_places.specs.Lines as spec;
ghost use Rattle.pure_row_places.specs.Reasons as reasons;
ghost use Rattle.pure_row_places.specs.Cursors.{IsAt};
ghost use Rattle.pure_row_places.specs.Scans.{seen_scan, seen_refusal, seen_scans, seen_refusals};

use crate::cursor::{Cursor, beginning, moved};
use crate::reasons::{header_place, reason_place, refuses_lemma, step_place};
use crate::scan::{RefusedScan, Scan};
use pure_places::{CommandParts, Part};
use pure_print::{Row, print_row};
use pure_text::Text;
use std::alloc::{AllocError, Global};

/// Puts the line and the column of a place in the source, to which the cursor goes.
///
/// # Errors
///
/// Want of memory, which stands for a source of more bytes than 32 bits count.
pub fn push_place(
    alloc: Global,
    text: &mut Vec<u8>,
    source: &[u8],
    cursor: Cursor,
    at: u32,
) -> Result<Cursor, AllocError>
    requires { IsAt source.now cursor }
    ensures text { IfOk result (λ _. text.new.items ≡ text.old.items ++ spec.place_text source.now at) }
    ensures cursor { IfOk result (IsAt source.now) }
{
    if source.len() >= u32::MAX as usize {
        return Err(AllocError);
    }
    let at = at.min(source.len() as u32);
    let now = moved(source, cursor, at);
    text.extend_from_slice(now.line.to_string(alloc)?.as_bytes())?;
    text.extend_from_slice(b":")?;
    text.extend_from_slice(now.column.to_string(alloc)?.as_bytes())?;
    Ok(now)
}

/// Puts the theory's file before a row's place.
#[tactic(auto, unfolding(crate::specs::Lines::file_mark))]
fn push_file(text: &mut Vec<u8>, theory: &Text) -> Result<(), AllocError>
    ensures { OnOk result (text.new.items ≡ text.old.items ++ (theory.now ++ spec.file_mark)) }
{
    text.extend_from_slice(theory.bytes())?;
    text.extend_from_slice(b".thy:")?;
    Ok(())
}

/// Puts the row behind its place.
#[tactic(auto, unfolding(crate::specs::Lines::row_mark))]
fn push_row(alloc: Global, text: &mut Vec<u8>, row: &Row) -> Result<(), AllocError>
    ensures { OnOk result (text.new.items ≡ text.old.items ++ (spec.row_mark ++ row_text row.now)) }
{
    text.extend_from_slice(b": ")?;
    text.extend_from_slice(print_row(alloc, row)?.bytes())?;
    Ok(())
}

/// Puts the place that the row's reason names, or that of a place in the source, to which the cursor goes.
fn push_first(
    alloc: Global,
    text: &mut Vec<u8>,
    row: &Row,
    source: &Text,
    cursor: Cursor,
    at: u32,
) -> Result<Cursor, AllocError>
    requires { IsAt source.now cursor }
    ensures text { IfOk result (λ _. text.new.items ≡ text.old.items ++ spec.first_of (reasons.reason_place row.now) (spec.place_text source.now at)) }
    ensures cursor { IfOk result (IsAt source.now) }
{
    match reason_place(row) {
        Some(place) => {
            text.extend_from_slice(place)?;
            Ok(cursor)
        }
        None => push_place(alloc, text, source.bytes(), cursor, at),
    }
}

/// Puts the line of the row of a command or a have.
fn push_command(
    alloc: Global,
    text: &mut Vec<u8>,
    theory: &Scan,
    cursor: Cursor,
    part: &Part,
    row: &Row,
) -> Result<Cursor, AllocError>
    requires { IsAt theory.now.source cursor }
    ensures text { IfOk result (λ _. text.new.items ≡ text.old.items ++ spec.line_text theory.now.name (spec.command_place theory.now.source (seen_part part.now) row.now) row.now) }
    ensures cursor { IfOk result (IsAt theory.now.source) }
{
    let at = step_place(part, row)?;
    push_file(text, &theory.name)?;
    let cursor = push_first(alloc, text, row, &theory.source, cursor, at)?;
    push_row(alloc, text, row)?;
    Ok(cursor)
}

/// Puts the line of the row of a theory that is refused.
fn push_refused_theory(
    alloc: Global,
    text: &mut Vec<u8>,
    theory: &Scan,
    row: &Row,
) -> Result<(), AllocError>
    ensures { IfOk result (λ _. text.new.items ≡ text.old.items ++ spec.line_text theory.now.name (spec.theory_place (seen_scan theory.now) row.now) row.now) }
{
    let at = header_place(&theory.places, row.tail.bytes());
    push_file(text, &theory.name)?;
    push_first(alloc, text, row, &theory.source, beginning(), at)?;
    push_row(alloc, text, row)?;
    Ok(())
}

/// Puts the place that the row's reason names, or that of the file's beginning.
#[tactic(auto, unfolding(crate::specs::Lines::beginning))]
fn push_beginning(text: &mut Vec<u8>, row: &Row) -> Result<(), AllocError>
    ensures { OnOk result (text.new.items ≡ text.old.items ++ spec.first_of (reasons.reason_place row.now) spec.beginning) }
{
    match reason_place(row) {
        Some(place) => text.extend_from_slice(place)?,
        None => text.extend_from_slice(b"1:1")?,
    }
    Ok(())
}

/// Puts the line of the row of a file that is refused.
fn push_refused(
    alloc: Global,
    text: &mut Vec<u8>,
    file: &RefusedScan,
    row: &Row,
) -> Result<(), AllocError>
    ensures { IfOk result (λ _. text.new.items ≡ text.old.items ++ spec.line_text (seen_refusal file.now).name (spec.refused_place (seen_refusal file.now).theory row.now) row.now) }
{
    push_file(text, &file.name)?;
    match &file.scan {
        Some(theory) => {
            let at = header_place(&theory.places, row.tail.bytes());
            push_first(alloc, text, row, &theory.source, beginning(), at)?;
        }
        None => push_beginning(text, row)?,
    }
    push_row(alloc, text, row)?;
    Ok(())
}

/// The rows from this place on.
fn rest_of(rows: &[Row], place: usize) -> &[Row]
    ensures { result.now ≡ drop place rows.now }
{
    if place >= rows.len() {
        return &[];
    }
    &rows[place..]
}

/// Whether the first row is that of this theory, which was refused.
#[tactic(auto, unfolding(crate::specs::Reasons::theory_word))]
fn is_barred(theory: &Text, rows: &[Row]) -> bool
    ensures { result ≡ spec.is_barred theory.now rows.now }
{
    if rows.is_empty() {
        return false;
    }
    match rows[0].head.bytes().strip_prefix(b"theory ") {
        Some(name) => name == theory.bytes(),
        None => false,
    }
}

/// Whether the first row refuses a lemma itself.
fn is_lemma_refused(rows: &[Row]) -> bool
    ensures { result ≡ spec.is_lemma_refused rows.now }
{
    if rows.is_empty() {
        return false;
    }
    refuses_lemma(&rows[0])
}

/// The haves of a command that have rows.
fn shown_haves<'c>(command: &'c CommandParts, rows: &[Row]) -> &'c [Part]
    ensures { map seen_part result.now ≡ spec.shown_haves (seen_command command.now) rows.now }
{
    if is_lemma_refused(rows) {
        return &[];
    }
    command.haves.as_slice()
}

/// Puts the lines of these commands and haves.
fn push_parts(
    alloc: Global,
    text: &mut Vec<u8>,
    theory: &Scan,
    cursor: Cursor,
    parts: &[Part],
    rows: &[Row],
) -> Result<Cursor, AllocError>
    requires { IsAt theory.now.source cursor }
    ensures text { IfOk result (λ _. text.new.items ≡ text.old.items ++ spec.part_lines (seen_scan theory.now) (map seen_part parts.now) rows.now) }
    ensures cursor { IfOk result (IsAt theory.now.source) }
{
    let mut cursor = cursor;
    for place in 0..parts.len() {
        if place >= rows.len() {
            return Ok(cursor);
        }
        cursor = push_command(alloc, text, theory, cursor, &parts[place], &rows[place])?;
    }
    Ok(cursor)
}

/// Puts the line of a command behind those of its haves.
fn push_own(
    alloc: Global,
    text: &mut Vec<u8>,
    theory: &Scan,
    cursor: Cursor,
    own: &Part,
    rows: &[Row],
) -> Result<Cursor, AllocError>
    requires { IsAt theory.now.source cursor }
    ensures text { IfOk result (λ _. text.new.items ≡ text.old.items ++ spec.part_lines (seen_scan theory.now) (seen_part own.now ∷ []) rows.now) }
    ensures cursor { IfOk result (IsAt theory.now.source) }
{
    if rows.is_empty() {
        return Ok(cursor);
    }
    push_command(alloc, text, theory, cursor, own, &rows[0])
}

/// Puts the lines of a command's rows.
fn push_command_rows(
    alloc: Global,
    text: &mut Vec<u8>,
    theory: &Scan,
    cursor: Cursor,
    command: &CommandParts,
    rows: &[Row],
) -> Result<Cursor, AllocError>
    requires { IsAt theory.now.source cursor }
    ensures text { IfOk result (λ _. text.new.items ≡ text.old.items ++ spec.command_lines (seen_scan theory.now) (seen_command command.now) rows.now) }
    ensures cursor { IfOk result (IsAt theory.now.source) }
{
    let haves = shown_haves(command, rows);
    let cursor = push_parts(alloc, text, theory, cursor, haves, rows)?;
    let behind = rest_of(rows, haves.len());
    push_own(alloc, text, theory, cursor, &command.own, behind)
}

/// The rows behind those of a command.
fn behind_command<'r>(command: &CommandParts, rows: &'r [Row]) -> &'r [Row]
    ensures { result.now ≡ spec.behind_command (seen_command command.now) rows.now }
{
    rest_of(rows, shown_haves(command, rows).len() + 1)
}

/// Puts the lines of a theory's commands.
fn push_commands(
    alloc: Global,
    text: &mut Vec<u8>,
    theory: &Scan,
    rows: &[Row],
) -> Result<(), AllocError>
    ensures { IfOk result (λ _. text.new.items ≡ text.old.items ++ spec.commands_lines (seen_scan theory.now) (seen_scan theory.now).places.commands rows.now) }
{
    let commands = theory.places.commands.as_slice();
    let mut cursor = beginning();
    let mut rest = rows;
    for command in commands {
        cursor = push_command_rows(alloc, text, theory, cursor, command, rest)?;
        rest = behind_command(command, rest);
    }
    Ok(())
}

/// The rows behind those of the commands.
fn behind_commands<'r>(commands: &[CommandParts], rows: &'r [Row]) -> &'r [Row]
    ensures { result.now ≡ spec.behind_commands (map seen_command commands.now) rows.now }
{
    let mut rest = rows;
    for command in commands {
        rest = behind_command(command, rest);
    }
    rest
}

/// Puts the lines of a theory.
fn push_theory(
    alloc: Global,
    text: &mut Vec<u8>,
    theory: &Scan,
    rows: &[Row],
) -> Result<(), AllocError>
    ensures { IfOk result (λ _. text.new.items ≡ text.old.items ++ spec.theory_lines (seen_scan theory.now) rows.now) }
{
    if is_barred(&theory.name, rows) {
        return push_refused_theory(alloc, text, theory, &rows[0]);
    }
    push_commands(alloc, text, theory, rows)
}

/// The rows behind those of a theory.
fn behind_theory<'r>(theory: &Scan, rows: &'r [Row]) -> &'r [Row]
    ensures { result.now ≡ spec.behind_theory (seen_scan theory.now) rows.now }
{
    if is_barred(&theory.name, rows) {
        return rest_of(rows, 1);
    }
    behind_commands(theory.places.commands.as_slice(), rows)
}

/// Puts the lines of the files that are refused.
fn push_refused_files(
    alloc: Global,
    text: &mut Vec<u8>,
    refused: &[RefusedScan],
    rows: &[Row],
) -> Result<(), AllocError>
    ensures { IfOk result (λ _. text.new.items ≡ text.old.items ++ spec.refused_lines (seen_refusals refused.now) rows.now) }
{
    for place in 0..refused.len() {
        if place >= rows.len() {
            return Ok(());
        }
        push_refused(alloc, text, &refused[place], &rows[place])?;
    }
    Ok(())
}

/// Puts the rows of a table, each behind the file, line and column where its command stands: first those of the theories, in
/// their order, and then those of the files that are refused.
///
/// # Errors
///
/// Want of memory alone.
pub fn push_lines(
    alloc: Global,
    text: &mut Vec<u8>,
    theories: &[Scan],
    refused: &[RefusedScan],
    rows: &[Row],
) -> Result<(), AllocError>
    ensures { IfOk result (λ _. text.new.items ≡ text.old.items ++ spec.all_lines (seen_scans theories.now) (seen_refusals refused.now) rows.now) }
{
    let mut rest = rows;
    for theory in theories {
        push_theory(alloc, text, theory, rest)?;
        rest = behind_theory(theory, rest);
    }
    push_refused_files(alloc, text, refused, rest)?;
    Ok(())
}

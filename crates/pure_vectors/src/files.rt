//! Files, as rows give them.
use crate::marks::is_line_feed;
use crate::texts::{push_turn, text_of};
use pure_io::File;
use pure_rows::Fault;
use pure_text::Text;
use std::alloc::{AllocError, Global};

/// What stands before a theory of the second version.
const VERSION: &[u8] = b"version 2 ";

/// How each theory begins, or goes on behind its version.
const HEAD: &[u8] = b"theory ";

/// Adds the file with this name and this text.
pub(crate) fn push_file(
    files: &mut Vec<File>,
    name: Vec<u8>,
    text: Vec<u8>,
) -> Result<(), AllocError> {
    files.push(File {
        name: Text::from(name),
        text: Text::from(text),
    })?;
    Ok(())
}

/// Adds a file, whose text is written short.
fn push_short(
    alloc: Global,
    files: &mut Vec<File>,
    name: &[u8],
    short: &[u8],
) -> Result<(), Fault> {
    let text = text_of(alloc, short)?;
    let name = Vec::from_slice(alloc, name)?;
    Ok(push_file(files, name, text)?)
}

/// The files whose names and texts these fields are by turns.
pub(crate) fn files_of(alloc: Global, fields: &[Vec<u8>]) -> Result<Vec<File>, Fault> {
    let mut files = Vec::new(alloc);
    for pair in fields.chunks(2) {
        let [name, text] = pair else {
            return Err(Fault::Unreadable);
        };
        push_short(alloc, &mut files, name, text)?;
    }
    Ok(files)
}

/// What is written at the turn with the number.
fn turn_of(alloc: Global, pieces: &[u8], number: usize) -> Result<Vec<u8>, AllocError> {
    let mut text = Vec::new(alloc);
    push_turn(alloc, &mut text, pieces, number)?;
    Ok(text)
}

/// The files with the numbers below this one, named and written by turns.
pub(crate) fn counted_files(
    alloc: Global,
    count: u32,
    names: &[u8],
    texts: &[u8],
) -> Result<Vec<File>, AllocError> {
    let mut files = Vec::new(alloc);
    for number in 0..count {
        let name = turn_of(alloc, names, number as usize)?;
        let text = turn_of(alloc, texts, number as usize)?;
        push_file(&mut files, name, text)?;
    }
    Ok(files)
}

/// Whether the byte can't stand in an identifier.
fn is_outside(byte: &u8) -> bool {
    !byte.is_ascii_alphanumeric() && *byte != b'_' && *byte != b'\''
}

/// What stands behind the beginning of a theory.
fn behind_head(text: &[u8]) -> Option<&[u8]> {
    text.strip_prefix(VERSION)
        .unwrap_or(text)
        .strip_prefix(HEAD)
}

/// The name of the theory that begins so.
fn name_of(text: &[u8]) -> &[u8] {
    let behind = behind_head(text).unwrap_or(b"");
    match behind.iter().position(is_outside) {
        Some(end) => &behind[..end],
        None => behind,
    }
}

/// The name of the file of a theory.
fn file_name(alloc: Global, text: &[u8]) -> Result<Vec<u8>, AllocError> {
    let mut name = Vec::from_slice(alloc, name_of(text))?;
    name.extend_from_slice(b".thy")?;
    Ok(name)
}

/// Adds the file of a theory, if there is one.
fn push_theory(alloc: Global, files: &mut Vec<File>, text: &[u8]) -> Result<(), AllocError> {
    if text.is_empty() {
        return Ok(());
    }
    let name = file_name(alloc, text)?;
    let text = Vec::from_slice(alloc, text)?;
    push_file(files, name, text)
}

/// Goes on by a line: where it begins a theory, the text of the theory before is added.
fn push_line(
    alloc: Global,
    files: &mut Vec<File>,
    text: &mut Vec<u8>,
    line: &[u8],
) -> Result<(), AllocError> {
    if behind_head(line).is_some() {
        push_theory(alloc, files, text)?;
        text.clear();
    }
    text.extend_from_slice(line)?;
    text.push(b'\n')?;
    Ok(())
}

/// Adds the files of theories.
pub(crate) fn push_theories(
    alloc: Global,
    files: &mut Vec<File>,
    theories: &[u8],
) -> Result<(), AllocError> {
    let mut text = Vec::new(alloc);
    for line in theories.split(is_line_feed) {
        push_line(alloc, files, &mut text, line)?;
    }
    push_theory(alloc, files, &text)
}

/// The files of theories, each of which begins a line.
pub(crate) fn theories_of(alloc: Global, theories: &[u8]) -> Result<Vec<File>, AllocError> {
    let mut files = Vec::new(alloc);
    push_theories(alloc, &mut files, theories)?;
    Ok(files)
}

/// Adds an equal file.
fn push_copy(alloc: Global, copies: &mut Vec<File>, file: &File) -> Result<(), AllocError> {
    let name = Vec::from_slice(alloc, file.name.bytes())?;
    let text = Vec::from_slice(alloc, file.text.bytes())?;
    push_file(copies, name, text)
}

/// Equal files.
pub(crate) fn copies(alloc: Global, files: &[File]) -> Result<Vec<File>, AllocError> {
    let mut copies = Vec::new(alloc);
    for file in files {
        push_copy(alloc, &mut copies, file)?;
    }
    Ok(copies)
}

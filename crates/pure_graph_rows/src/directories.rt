//! Directories from a short notation.
use pure_io::File;
use pure_text::Text;
use std::alloc::{AllocError, Global};

/// The parts, one behind another.
pub(crate) fn joined(alloc: Global, parts: &[&[u8]]) -> Result<Text, AllocError> {
    let mut text = Vec::new(alloc);
    for part in parts {
        text.extend_from_slice(part)?;
    }
    Ok(Text::from(text))
}

/// The file of the theory with this text.
pub(crate) fn theory_file(alloc: Global, theory: &[u8], text: Text) -> Result<File, AllocError> {
    let name = joined(alloc, &[theory, b".thy"])?;
    Ok(File { name, text })
}

/// The file of the theory with these imports and no commands.
fn bare_file(alloc: Global, theory: &[u8], imports: &[u8]) -> Result<File, AllocError> {
    let word: &[u8] = if imports.is_empty() {
        b""
    } else {
        b" imports "
    };
    let text = joined(alloc, &[b"theory ", theory, word, imports, b" begin end"])?;
    theory_file(alloc, theory, text)
}

/// The file of this name and text.
fn whole_file(alloc: Global, name: &[u8], text: &[u8]) -> Result<File, AllocError> {
    let name = joined(alloc, &[name])?;
    let text = joined(alloc, &[text])?;
    Ok(File { name, text })
}

/// The file that is written `NAME=TEXT`, or `THEORY:IMPORTS` for a theory without commands.
fn file_of(alloc: Global, piece: &[u8]) -> Result<File, AllocError> {
    if let Some(at) = piece.iter().position(|byte| *byte == b'=') {
        return whole_file(alloc, &piece[..at], &piece[at + 1..]);
    }
    match piece.iter().position(|byte| *byte == b':') {
        Some(at) => bare_file(alloc, &piece[..at], &piece[at + 1..]),
        None => bare_file(alloc, piece, b""),
    }
}

/// Appends the files that are written with bars between them.
pub(crate) fn put_files(
    alloc: Global,
    files: &mut Vec<File>,
    directory: &[u8],
) -> Result<(), AllocError> {
    for piece in directory.split(|byte| *byte == b'|') {
        if !piece.is_empty() {
            files.push(file_of(alloc, piece)?)?;
        }
    }
    Ok(())
}

//! Files, folders and links that rows make.
use crate::words::Making;
use pure_rows::{Outcome, Row};
use std::alloc::{AllocError, Global};
use std::fs::Files;
use std::os::unix::fs::symlink;
use std::str::from_utf8;
use std::{fs, io};

/// So many bytes of numbered lines, each unlike the others; the last one may be cut short.
pub(crate) fn numbered_lines(alloc: Global, count: usize) -> Result<Vec<u8>, AllocError> {
    let mut text = Vec::new(alloc);
    for number in 0..u32::MAX {
        if text.len() >= count {
            break;
        }
        text.extend_from_slice(number.to_string(alloc)?.as_bytes())?;
        text.push(b'\n')?;
    }
    text.truncate(count);
    Ok(text)
}

/// Writes a file of so many bytes of numbered lines.
fn write_numbered<R: Files>(rt: &R, alloc: Global, name: &str, count: u32) -> io::Result<()> {
    let text = numbered_lines(alloc, count as usize)?;
    fs::write(rt, name, text)
}

/// Writes so many empty files, whose names are numbers.
fn write_many<R: Files>(rt: &R, alloc: Global, count: u32) -> io::Result<()> {
    for number in 0..count {
        fs::write(rt, number.to_string(alloc)?, "")?;
    }
    Ok(())
}

/// The outcome of what the system was asked for.
fn done(answer: io::Result<()>) -> Outcome {
    Outcome::of(answer.is_ok())
}

/// What comes of a file of so many bytes of numbered lines.
fn numbered_made<R: Files>(rt: &R, alloc: Global, name: &str, count: Option<u32>) -> Outcome {
    match count {
        Some(count) => done(write_numbered(rt, alloc, name, count)),
        None => Outcome::Unreadable,
    }
}

/// What comes of a link to the target.
fn link_made<R: Files>(rt: &R, name: &str, target: &[u8]) -> Outcome {
    match from_utf8(target) {
        Ok(target) => done(symlink(rt, target, name)),
        Err(_) => Outcome::Unreadable,
    }
}

/// What comes of a row that makes something of this name, or removes it.
fn named_outcome<R: Files>(
    rt: &R,
    alloc: Global,
    making: Making,
    row: &Row,
    name: &str,
) -> Outcome {
    match making {
        Making::File => done(fs::write(rt, name, row.field(2))),
        Making::Numbered => numbered_made(rt, alloc, name, row.number(2)),
        Making::Link => link_made(rt, name, row.field(2)),
        Making::Folder => done(fs::create_dir(rt, name)),
        Making::Remove => done(fs::remove_file(rt, name)),
        Making::RemoveFolder => done(fs::remove_dir(rt, name)),
    }
}

/// What comes of a row that makes or removes something.
pub(crate) fn making_outcome<R: Files>(
    rt: &R,
    alloc: Global,
    making: Making,
    row: &Row,
) -> Outcome {
    match from_utf8(row.field(1)) {
        Ok(name) => named_outcome(rt, alloc, making, row, name),
        Err(_) => Outcome::Unreadable,
    }
}

/// What comes of a row that makes so many files.
pub(crate) fn many_outcome<R: Files>(rt: &R, alloc: Global, count: Option<u32>) -> Outcome {
    match count {
        Some(count) => done(write_many(rt, alloc, count)),
        None => Outcome::Unreadable,
    }
}

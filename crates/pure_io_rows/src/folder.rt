//! What the library of the current directory answers.
use crate::answers::{Reading, fault_of, is_reading};
use crate::making::{making_outcome, many_outcome, numbered_lines};
use crate::words::{Asking, FolderWord, folder_word};
use pure_io::{DirLibrary, LibFault, Library, ReadFault};
use pure_rows::{Outcome, Row, Subject};
use pure_text::Text;
use std::alloc::{AllocError, Global};
use std::fs::{Files, Permissions};
use std::os::unix::fs::{MetadataExt, PermissionsExt};
use std::path::Path;
use std::str::from_utf8;
use std::{fs, io};

/// The current directory, with its path.
#[derive(Clone, Copy)]
pub(crate) struct Folder<'p> {
    pub(crate) path: Path<'p>,
}

impl Subject for Folder<'_> {
    fn outcome<R: Files + Print + AllocGlobal>(&self, rt: &R, alloc: Global, row: &Row) -> Outcome {
        match folder_word(row) {
            Some(FolderWord::Making(making)) => making_outcome(rt, alloc, making, row),
            Some(FolderWord::Many) => many_outcome(rt, alloc, row.number(1)),
            Some(FolderWord::Asking(asking)) => asking_outcome(rt, alloc, asking, self.path, row),
            None => Outcome::Unreadable,
        }
    }
}

/// What comes of a row of the library's answer; the path is the directory's.
fn asking_outcome<R: Files + Print + AllocGlobal>(
    rt: &R,
    alloc: Global,
    asking: Asking,
    path: Path<'_>,
    row: &Row,
) -> Outcome {
    match asking {
        Asking::Names => names_outcome(rt, alloc, row.fields_from(1)),
        Asking::Count => count_outcome(rt, alloc, row.number(1)),
        Asking::NoNames => no_names_outcome(rt, alloc),
        Asking::Text => reading_outcome(rt, alloc, row, Ok(row.field(3))),
        Asking::NumberedText => numbered_outcome(rt, alloc, row, row.number(3)),
        Asking::Fault => fault_outcome(rt, alloc, row),
        Asking::ShutFile => shut_file_outcome(rt, alloc, row.field(1)),
        Asking::ShutFolder => shut_folder_outcome(rt, alloc, path),
    }
}

/// The names of the current directory.
fn listed<R: Files + Print + AllocGlobal>(rt: &R, alloc: Global) -> Result<Vec<Text>, LibFault> {
    let mut library = DirLibrary::make();
    library.names(rt, alloc)
}

/// The answer of the current directory on a name.
fn read<R: Files + Print + AllocGlobal>(
    rt: &R,
    alloc: Global,
    name: &[u8],
    limit: u32,
) -> Result<Text, ReadFault> {
    let name = Text::make(alloc, name)?;
    let mut library = DirLibrary::make();
    library.read(rt, alloc, &name, limit)
}

/// Whether these are the names, when they are sorted.
fn are_names(names: Vec<Text>, wanted: &[Vec<u8>]) -> Result<bool, AllocError> {
    let mut names = names;
    names.sort()?;
    if names.len() != wanted.len() {
        return Ok(false);
    }
    for (name, other) in names.iter().zip(wanted) {
        if name.bytes() != other.as_slice() {
            return Ok(false);
        }
    }
    Ok(true)
}

/// What comes of a row of the names.
fn names_outcome<R: Files + Print + AllocGlobal>(
    rt: &R,
    alloc: Global,
    wanted: &[Vec<u8>],
) -> Outcome {
    match listed(rt, alloc) {
        Ok(names) => Outcome::of_answer(are_names(names, wanted)),
        Err(LibFault::Failed) => Outcome::Differs,
        Err(LibFault::Memory) => Outcome::Memory,
    }
}

/// What comes of a row of the count of names.
fn count_outcome<R: Files + Print + AllocGlobal>(
    rt: &R,
    alloc: Global,
    count: Option<u32>,
) -> Outcome {
    let Some(count) = count else {
        return Outcome::Unreadable;
    };
    match listed(rt, alloc) {
        Ok(names) => Outcome::of(names.len() == count as usize),
        Err(LibFault::Failed) => Outcome::Differs,
        Err(LibFault::Memory) => Outcome::Memory,
    }
}

/// What comes of a row of a folder that can't be listed.
fn no_names_outcome<R: Files + Print + AllocGlobal>(rt: &R, alloc: Global) -> Outcome {
    match listed(rt, alloc) {
        Ok(_) => Outcome::Differs,
        Err(LibFault::Failed) => Outcome::Holds,
        Err(LibFault::Memory) => Outcome::Memory,
    }
}

/// What comes of a row of a reading up to the limit.
fn reading_outcome<R: Files + Print + AllocGlobal>(
    rt: &R,
    alloc: Global,
    row: &Row,
    wanted: Reading<'_>,
) -> Outcome {
    match row.number(2) {
        Some(limit) => Outcome::of(is_reading(&read(rt, alloc, row.field(1), limit), wanted)),
        None => Outcome::Unreadable,
    }
}

/// What comes of a row of a reading that is a fault.
fn fault_outcome<R: Files + Print + AllocGlobal>(rt: &R, alloc: Global, row: &Row) -> Outcome {
    match fault_of(row.field(3)) {
        Some(fault) => reading_outcome(rt, alloc, row, Err(fault)),
        None => Outcome::Unreadable,
    }
}

/// What comes of a row of a reading of so many bytes of numbered lines.
fn numbered_outcome<R: Files + Print + AllocGlobal>(
    rt: &R,
    alloc: Global,
    row: &Row,
    count: Option<u32>,
) -> Outcome {
    let Some(count) = count else {
        return Outcome::Unreadable;
    };
    match numbered_lines(alloc, count as usize) {
        Ok(text) => reading_outcome(rt, alloc, row, Ok(&text)),
        Err(_) => Outcome::Memory,
    }
}

/// Whether this process may read whatever it likes, as the file's owner.
fn is_root<R: Files>(rt: &R, path: Path<'_>) -> io::Result<bool> {
    Ok(fs::metadata(rt, path)?.uid() == 0)
}

/// The outcome of a test that root passes always.
fn outcome_beside_root(is_root: io::Result<bool>, holds: bool) -> Outcome {
    match is_root {
        Ok(is_root) => Outcome::of(is_root || holds),
        Err(_) => Outcome::Differs,
    }
}

/// What comes of a row of a file that nobody may read: reading it is a fault.
fn shut_file_outcome<R: Files + Print + AllocGlobal>(
    rt: &R,
    alloc: Global,
    name: &[u8],
) -> Outcome {
    let Ok(path) = from_utf8(name) else {
        return Outcome::Unreadable;
    };
    let is_shut = fs::set_permissions(rt, path, Permissions::from_mode(0)).is_ok();
    let is_refused = is_reading(&read(rt, alloc, name, 9), Err(ReadFault::Failed));
    outcome_beside_root(is_root(rt, Path::new(path)), is_shut && is_refused)
}

/// What comes of a row of a folder that nobody may read: listing it is a fault.
fn shut_folder_outcome<R: Files + Print + AllocGlobal>(
    rt: &R,
    alloc: Global,
    path: Path<'_>,
) -> Outcome {
    let is_shut = fs::set_permissions(rt, path, Permissions::from_mode(0)).is_ok();
    let is_refused = matches!(listed(rt, alloc), Err(LibFault::Failed));
    let is_open = fs::set_permissions(rt, path, Permissions::from_mode(0o700)).is_ok();
    outcome_beside_root(is_root(rt, path), is_shut && is_refused && is_open)
}

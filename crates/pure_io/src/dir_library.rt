//! The current directory as a library.
ghost use Rattle.std.specs.Prelude.{◌≡◌, ◌≤◌, ◌+◌, length, IfOk, IfErr, IsSomeAnd, MatchOption, MatchResult};
ghost use Rattle.std.specs.Iterator.{IsFinite};
ghost use Rattle.std.specs.Fs.{dir_entry_name};
ghost use Rattle.std.specs.IoError.{error_kind};
ghost use Rattle.pure_io.specs.Entries.{ListsWithin, ListsPast};
ghost use Rattle.pure_io.specs.Reading.{list_fault_of, unnamed_entry_of, NamesEntry, NamesNext, names_steps};

use crate::entries::names_within;
use crate::library::{LibFault, Library, ReadFault};
use crate::reading::read_regular;
use pure_text::Text;
use std::alloc::Global;
use std::fs::DirEntry;
use std::io::ErrorKind;
use std::marker::Model;
use std::rt::Files;
use std::{fs, io};

/// How many entries a directory may have.
const MAX_ENTRIES: usize = 100_000;

/// The files of the current directory, of which only regular ones are read: a folder, a pipe or a device of
/// a file's name is a fault. Tells none of them. Contracts see it as its count of faults.
#[derive(Debug, Drop)]
pub struct DirLibrary {
    faults: u64,
}

impl Model for DirLibrary {
    ghost use Rattle.std.specs.Prelude.{ℕ};

    ghost Value = { ℕ };

    ghost view = { λ d. d.faults };
}

impl DirLibrary {
    ghost use Rattle.std.specs.Prelude.{◌≡◌, None};

    /// The current directory, with no fault so far.
    pub fn make() -> DirLibrary
        ensures faults { result ≡ 0 }
        ensures told { ⟦<DirLibrary as Library>⟧.files result ≡ None }
        ensures count { ⟦<DirLibrary as Library>⟧.faults result ≡ 0 }
    {
        DirLibrary { faults: 0 }
    }
}

impl Library for DirLibrary {
    ghost use Rattle.std.specs.Prelude.{◌≡◌, ◌≢◌, ◌≤◌, ◌+◌, None, IfOk, length};
    ghost use Rattle.pure_io.specs.Counts.{next_count};

    ghost files = { λ _. None };

    ghost faults = { λ d. d };

    fn names<R: Files + Print + AllocGlobal>(
        &mut self,
        rt: &R,
        alloc: Global,
    ) -> Result<Vec<Text>, LibFault>
        ensures failed { result ≡ Err LibFault.Failed → self.new ≡ next_count self.old }
        ensures others { result ≢ Err LibFault.Failed → self.new ≡ self.old }
        ensures later { self.old ≤ self.new }
    {
        let answer = directory_names(rt, alloc);
        if let Err(LibFault::Failed) = &answer {
            self.faults = self.faults.saturating_add(1);
        }
        answer
    }

    fn read<R: Files + Print + AllocGlobal>(
        &mut self,
        rt: &R,
        alloc: Global,
        name: &Text,
        limit: u32,
    ) -> Result<Text, ReadFault>
        ensures short { IfOk result (λ t. length t ≤ limit + 1) }
        ensures failed { result ≡ Err ReadFault.Failed → self.new ≡ next_count self.old }
        ensures others { result ≢ Err ReadFault.Failed → self.new ≡ self.old }
        ensures later { self.old ≤ self.new }
    {
        let answer = read_named(rt, alloc, name, limit);
        if let Err(ReadFault::Failed) = &answer {
            self.faults = self.faults.saturating_add(1);
        }
        answer
    }
}

/// The names of the current directory's entries.
fn directory_names<R: Files + AllocGlobal>(rt: &R, alloc: Global) -> Result<Vec<Text>, LibFault> {
    names_of_opened(alloc, fs::read_dir(&rt, "."))
}

/// The names of the entries of a directory that the system opened, or what its error says. Fails past
/// `MAX_ENTRIES` entries, those counted whose names aren't UTF-8.
fn names_of_opened<R: Files + Drop, I: Iterator<Item = io::Result<DirEntry<R, Global>>>>(
    alloc: Global,
    opened: io::Result<I>,
) -> Result<Vec<Text>, LibFault>
    requires can { IfOk opened (λ entries. I.can_next entries) }
    requires ends { IfOk opened (λ entries. IsFinite (I.remaining entries)) }
    ensures unopened { IfErr opened (λ error. result ≡ Err (list_fault_of (error_kind error))) }
    ensures all { IfOk opened (λ entries. IfOk result (λ names.
        ListsWithin (names_steps I.next_gives) entries MAX_ENTRIES names.items)) }
    ensures failed { IfOk opened (λ entries.
        result ≡ Err LibFault.Failed → ListsPast (names_steps I.next_gives) entries MAX_ENTRIES) }
{
    let entries = match opened {
        Ok(entries) => entries,
        Err(error) => return Err(list_fault(&error)),
    };
    names_within(alloc, NamedEntries { entries, alloc }, MAX_ENTRIES)
}

/// The entries of a directory, each with its name as a text.
#[derive(Drop)]
struct NamedEntries<I> {
    entries: I,
    alloc: Global,
}

impl<R: Files + Drop, I: Iterator<Item = io::Result<DirEntry<R, Global>>>> Iterator
    for NamedEntries<I> {
    type Item = Result<Option<Text>, LibFault>;

    ghost can_next = { λ s. I.can_next s.entries };

    ghost next_gives = { λ s item t. names_steps I.next_gives s.entries item t.entries };

    ghost remaining = { λ s. I.remaining s.entries };

    fn next(&mut self) -> Option<Result<Option<Text>, LibFault>> {
        next_name(self.alloc, self.entries.next())
    }
}

/// What the system's next answer on a directory gives: nothing at the end, and else an entry, also where
/// the answer is an error.
fn next_name<R: Files + Drop>(
    alloc: Global,
    next: Option<io::Result<DirEntry<R, Global>>>,
) -> Option<Result<Option<Text>, LibFault>>
    ensures { NamesNext next result }
{
    let entry = next?;
    Some(entry_name(alloc, entry))
}

/// The name of an entry, or none where it isn't UTF-8.
fn entry_name<R: Files + Drop>(
    alloc: Global,
    entry: io::Result<DirEntry<R, Global>>,
) -> Result<Option<Text>, LibFault>
    ensures named { IfOk entry (λ e.
        MatchResult result (λ name. name ≡ Some (dir_entry_name e)) (λ fault. fault ≡ LibFault.Memory)) }
    ensures unnamed { IfErr entry (λ e. result ≡ unnamed_entry_of (error_kind e)) }
{
    match entry {
        Ok(entry) => Ok(Some(Text::make(alloc, entry.file_name().as_bytes())?)),
        Err(error) => unnamed_entry(&error),
    }
}

/// What an error says of an entry.
fn unnamed_entry(error: &io::Error) -> Result<Option<Text>, LibFault>
    ensures { result ≡ unnamed_entry_of (error_kind error.now) }
{
    match error.kind() {
        ErrorKind::InvalidFilename => Ok(None),
        _ => Err(list_fault(error)),
    }
}

/// The first `limit + 1` bytes of the regular file of that name in the current directory. A name that isn't
/// UTF-8 is no file's.
fn read_named<R: Files>(rt: &R, alloc: Global, name: &Text, limit: u32) -> Result<Text, ReadFault>
    ensures short { IfOk result (λ t. length t ≤ limit + 1) }
{
    let Ok(path) = std::str::from_utf8(name.bytes()) else {
        return Err(ReadFault::Missing);
    };
    read_regular(rt, alloc, path, fs::metadata(rt, path), limit)
}

/// What an error of the system means for a listing.
fn list_fault(error: &io::Error) -> LibFault
    ensures { result ≡ list_fault_of (error_kind error.now) }
{
    match error.kind() {
        ErrorKind::OutOfMemory => LibFault::Memory,
        _ => LibFault::Failed,
    }
}

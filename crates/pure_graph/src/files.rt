//! The files of a library's theories.
ghost use Rattle.std.specs.Prelude.{◌≡◌, ℕ, ◌+◌, ◌^◌, ◌<◌, ◌≤◌, List, Option, length, map, IfOk, IfSome};
ghost use Rattle.pure_io.specs.declared.library.File as library;
ghost use Rattle.pure_io.specs.Outside.{Rose, text_named};
ghost use Rattle.pure_graph.specs.Limits.{most_files, most_bytes, session_parts_bound};
ghost use Rattle.pure_graph.specs.Listing.{file_name};
ghost use Rattle.pure_graph.specs.Drafts.{IsKnownOf, AreDraftsFrom, IsReadTo, IsReadOn, AreReadBehind};
ghost use Rattle.pure_graph.specs.Seen.{seen_files};
ghost use Rattle.pure_graph.specs.Told.{IsHeld, AreFilesOf};

use crate::drafts::{Draft, Known, own_file, say_all};
use crate::fault::LoadFault;
use crate::listing::{file_of, theories_of};
use crate::outcome::{Outcome, Reason, TheoryFile};
use crate::source::MOST_BYTES;
use crate::sum::counted;
use pure_io::{LibFault, Library, ReadFault};
use pure_text::Text;
use std::alloc::{AllocError, Global};
use std::rt::Files;
use std::thread::Threads;

/// The most files that are read.
const MOST_FILES: usize = 256;

/// The names of the library's files.
fn list<R: Files + Print + AllocGlobal, L: Library>(
    rt: &R,
    alloc: Global,
    library: &mut L,
) -> Result<Vec<Text>, LoadFault>
    ensures told { IfOk result (λ names. IfSome (L.files library.old) (λ files. names.items ≡ map (λ f. f.name) files)) }
    ensures fault { result ≡ Err LoadFault.ReadFault → Rose (L.faults library.old) (L.faults library.new) }
    ensures files { L.files library.new ≡ L.files library.old }
    ensures later { L.faults library.old ≤ L.faults library.new }
{
    match library.names(rt, alloc) {
        Ok(names) => Ok(names),
        Err(LibFault::Failed) => Err(LoadFault::ReadFault),
        Err(LibFault::Memory) => Err(LoadFault::Memory),
    }
}

/// The first bytes of a theory's file, one more than it may have at most, or none where the library has no such file.
fn held_bytes<R: Files + Print + AllocGlobal, L: Library>(
    rt: &R,
    alloc: Global,
    library: &mut L,
    theory: &Text,
) -> Result<Option<Text>, LoadFault>
    ensures told { IfOk result (λ held. IfSome (L.files library.old) (λ files. IsHeld (text_named (file_name theory.now) files) held)) }
    ensures short { IfOk result (λ held. IfSome held (λ bytes. length bytes ≤ most_bytes + 1)) }
    ensures fault { result ≡ Err LoadFault.ReadFault → Rose (L.faults library.old) (L.faults library.new) }
    ensures files { L.files library.new ≡ L.files library.old }
    ensures later { L.faults library.old ≤ L.faults library.new }
{
    let file = match file_of(alloc, theory) {
        Ok(file) => file,
        Err(_) => return Err(LoadFault::Memory),
    };
    match library.read(rt, alloc, &file, MOST_BYTES) {
        Ok(text) => Ok(Some(text)),
        Err(ReadFault::Missing) => Ok(None),
        Err(ReadFault::Failed) => Err(LoadFault::ReadFault),
        Err(ReadFault::Memory) => Err(LoadFault::Memory),
    }
}

/// What is read of the file of a theory, if it is read at all: behind the first files none is.
fn known_at<R: Files + Print + AllocGlobal, L: Library>(
    rt: &R,
    alloc: Global,
    library: &mut L,
    place: usize,
    theory: &Text,
) -> Result<Known, LoadFault>
    ensures told { IfOk result (λ known. IsKnownOf (L.files library.old) place theory.now known) }
    ensures unread { most_files ≤ place → library.new ≡ library.old }
    ensures fault { result ≡ Err LoadFault.ReadFault → Rose (L.faults library.old) (L.faults library.new) }
    ensures files { L.files library.new ≡ L.files library.old }
    ensures later { L.faults library.old ≤ L.faults library.new }
{
    if place >= MOST_FILES {
        let outcome = Outcome::Refused {
            reason: Reason::TooManyFiles,
        };
        return Ok(Known::Said { outcome });
    }
    let bytes = held_bytes(rt, alloc, library, theory)?;
    Ok(Known::Read { bytes })
}

/// What is read of the files of these theories, of which the first stands at this place.
fn read_drafts<R: Files + Print + AllocGlobal, L: Library>(
    rt: &R,
    alloc: Global,
    library: &mut L,
    place: usize,
    theories: &[Text],
) -> Result<Vec<Draft>, LoadFault>
    requires { place + length theories.now < 2 ^ 64 }
    ensures told { IfOk result (λ drafts. AreDraftsFrom (L.files library.old) place theories.now drafts.items) }
    ensures fault { result ≡ Err LoadFault.ReadFault → Rose (L.faults library.old) (L.faults library.new) }
    ensures files { L.files library.new ≡ L.files library.old }
    ensures later { L.faults library.old ≤ L.faults library.new }
{
    let mut drafts = Vec::new(alloc);
    for theory in theories {
        let known = known_at(rt, alloc, library, place + drafts.len(), theory)?;
        let theory = theory.copy(alloc)?;
        drafts.push(Draft { theory, known })?;
    }
    Ok(drafts)
}

/// The files that were read so far, each with what it says by itself and by its place, and how many parts they have.
#[derive(Drop)]
struct ReadFiles {
    files: Vec<TheoryFile>,
    parts: usize,
}

/// The files with those of the drafts behind them.
fn counted_files(
    alloc: Global,
    before: ReadFiles,
    drafts: Vec<Draft>,
) -> Result<ReadFiles, AllocError>
    requires { before.parts ≤ session_parts_bound }
    ensures few { IfOk result (λ read. read.parts ≤ session_parts_bound) }
    ensures behind { IfOk result (λ read. AreReadBehind before drafts.items read) }
{
    let ReadFiles {
        mut files,
        mut parts,
    } = before;
    for draft in drafts {
        let TheoryFile { theory, outcome } = own_file(alloc, draft)?;
        let outcome = counted(&mut parts, outcome);
        files.push(TheoryFile { theory, outcome })?;
    }
    Ok(ReadFiles { files, parts })
}

/// The files with those of these theories behind them, of which the first stands at this place. They are read one after the
/// other, and then say what they say, in so many threads at most.
fn read_on<R: Files + Print + AllocGlobal, T: Threads + Sync, L: Library>(
    rt: &R,
    alloc: Global,
    library: &mut L,
    threads: &T,
    number: usize,
    place: usize,
    theories: &[Text],
    before: ReadFiles,
) -> Result<ReadFiles, LoadFault>
    requires room { place + length theories.now < 2 ^ 64 }
    requires few { before.parts ≤ session_parts_bound }
    ensures few { IfOk result (λ read. read.parts ≤ session_parts_bound) }
    ensures told { IfOk result (λ read. IsReadOn (L.files library.old) place theories.now before read) }
    ensures fault { result ≡ Err LoadFault.ReadFault → Rose (L.faults library.old) (L.faults library.new) }
    ensures files { L.files library.new ≡ L.files library.old }
    ensures later { L.faults library.old ≤ L.faults library.new }
{
    let mut drafts = read_drafts(rt, alloc, library, place, theories)?;
    say_all(threads, alloc, number, drafts.as_mut_slice());
    let read = counted_files(alloc, before, drafts)?;
    Ok(read)
}

/// How many files are read before the next say what they say: one where no thread is to work beside the caller's, so that the
/// bytes of no other wait; else so many for each thread that none waits long for the others.
fn at_once(number: usize) -> usize
    ensures { 0 < result }
{
    if number < 2 {
        1
    } else {
        number.saturating_mul(16)
    }
}

/// The files of these theories, some read at once.
fn read_theories<R: Files + Print + AllocGlobal, T: Threads + Sync, L: Library>(
    rt: &R,
    alloc: Global,
    library: &mut L,
    threads: &T,
    number: usize,
    theories: &[Text],
) -> Result<ReadFiles, LoadFault>
    ensures told { IfOk result (IsReadTo (L.files library.old) theories.now) }
    ensures fault { result ≡ Err LoadFault.ReadFault → Rose (L.faults library.old) (L.faults library.new) }
    ensures files { L.files library.new ≡ L.files library.old }
    ensures later { L.faults library.old ≤ L.faults library.new }
{
    let most = at_once(number);
    let mut read = ReadFiles {
        files: Vec::new(alloc),
        parts: 0,
    };
    let mut place = 0;
    while place < theories.len() {
        let end = place.saturating_add(most).min(theories.len());
        let some = &theories[place..end];
        let more = read_on(rt, alloc, library, threads, number, place, some, read)?;
        read = more;
        place = end;
    }
    Ok(read)
}

/// The files of a library's theories in byte order, each with what it says by itself and by its place. At most one byte
/// more than a file may have is read of each, and nothing of those behind the first 256. Some are read at once, one after the
/// other, and what they say is found in so many threads at most before the next are read.
pub fn read_files<R: Files + Print + AllocGlobal, T: Threads + Sync, L: Library>(
    rt: &R,
    alloc: Global,
    library: &mut L,
    threads: &T,
    number: usize,
) -> Result<Vec<TheoryFile>, LoadFault>
    ensures told { IfOk result (λ files. AreFilesOf (L.files library.old) (seen_files files.items)) }
    ensures fault { result ≡ Err LoadFault.ReadFault → Rose (L.faults library.old) (L.faults library.new) }
    ensures files { L.files library.new ≡ L.files library.old }
    ensures later { L.faults library.old ≤ L.faults library.new }
{
    let names = list(rt, alloc, library)?;
    let theories = theories_of(alloc, &names)?;
    let ReadFiles { files, .. } = read_theories(rt, alloc, library, threads, number, &theories)?;
    Ok(files)
}

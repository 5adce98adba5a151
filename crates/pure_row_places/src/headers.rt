//! The headers of refused files, where their reasons speak of them.
ghost use Rattle.std.specs.Prelude.{◌≡◌, ◌≤◌, ◌++◌, ◌∷◌, [], Err, IfOk, option_map};
ghost use Rattle.pure_text.specs.Lists.{EachTwo};
ghost use Rattle.pure_io.specs.Outside.{Rose};
ghost use Rattle.pure_graph.specs.Listing.{file_name};
ghost use Rattle.pure_row_places.specs.Headers as spec;
ghost use Rattle.pure_row_places.specs.Reasons.{begins};
ghost use Rattle.pure_row_places.specs.Headers.{IsLookedAtAs, IsTheoryOf};
ghost use Rattle.pure_row_places.specs.Scans.{seen_scan};

use crate::scan::{RefusedScan, Scan, scanned};
use pure_graph::LoadFault;
use pure_io::{Library, ReadFault};
use pure_session::RefusedFile;
use pure_text::Text;
use std::alloc::{AllocError, Global};
use std::rt::Files;

/// The most bytes that a file may have; one more is read, to see that a file has more.
const MOST_BYTES: u32 = 262_144;

/// Whether the text begins so.
fn begins(text: &[u8], front: &[u8]) -> bool
    ensures { result ≡ begins front.now text.now }
{
    text.starts_with(front)
}

/// Whether the reason names an import.
#[tactic(auto, unfolding(pure_graph::specs::Session::no_file_text, pure_graph::specs::Session::parent_refused_text))]
fn names_import(reason: &[u8]) -> bool
    ensures { result ≡ spec.names_import reason.now }
{
    if begins(reason, b"no file ") {
        return true;
    }
    begins(reason, b"parent refused ")
}

/// Whether the reason speaks of the file's header.
#[tactic(auto, unfolding(pure_graph::specs::Session::header_name_text, pure_graph::specs::Session::cyclic_imports_text))]
fn speaks_of_header(reason: &[u8]) -> bool
    ensures { result ≡ spec.speaks_of_header reason.now }
{
    if reason == b"header name".as_slice() {
        return true;
    }
    if reason == b"cyclic imports".as_slice() {
        return true;
    }
    names_import(reason)
}

/// The name of a theory's file.
fn file_of(alloc: Global, theory: &Text) -> Result<Text, AllocError>
    ensures { IfOk result (λ file. file ≡ file_name theory.now) }
{
    let mut name = Vec::from_slice(alloc, theory.bytes())?;
    name.extend_from_slice(b".thy")?;
    Ok(Text::from(name))
}

/// The theory of this name with the places of its parts, as its file has it, or none where there is no such file.
fn theory_of<R: Files + Print + AllocGlobal, L: Library>(
    rt: &R,
    alloc: Global,
    library: &mut L,
    name: &Text,
) -> Result<Option<Scan>, LoadFault>
    ensures told { IfOk result (λ found. IsTheoryOf (L.files library.old) name.now (option_map seen_scan found)) }
    ensures fault { result ≡ Err LoadFault.ReadFault → Rose (L.faults library.old) (L.faults library.new) }
    ensures files { L.files library.new ≡ L.files library.old }
    ensures later { L.faults library.old ≤ L.faults library.new }
{
    let file = file_of(alloc, name)?;
    match library.read(rt, alloc, &file, MOST_BYTES) {
        Ok(source) => {
            let scan = scanned(alloc, name, &source)?;
            Ok(Some(scan))
        }
        Err(ReadFault::Missing) => Ok(None),
        Err(ReadFault::Failed) => Err(LoadFault::ReadFault),
        Err(ReadFault::Memory) => Err(LoadFault::Memory),
    }
}

/// What is seen of a refused file.
fn looked_at<R: Files + Print + AllocGlobal, L: Library>(
    rt: &R,
    alloc: Global,
    library: &mut L,
    file: &RefusedFile,
) -> Result<RefusedScan, LoadFault>
    ensures told { IfOk result (IsLookedAtAs (L.files library.old) file.now) }
    ensures fault { result ≡ Err LoadFault.ReadFault → Rose (L.faults library.old) (L.faults library.new) }
    ensures files { L.files library.new ≡ L.files library.old }
    ensures later { L.faults library.old ≤ L.faults library.new }
{
    let name = file.name.copy(alloc)?;
    if !speaks_of_header(file.reason.bytes()) {
        return Ok(RefusedScan { name, scan: None });
    }
    let scan = theory_of(rt, alloc, library, &file.name)?;
    Ok(RefusedScan { name, scan })
}

/// Puts it behind the others.
fn put(found: &mut Vec<RefusedScan>, scan: RefusedScan) -> Result<(), AllocError>
    ensures { IfOk result (λ _. found.new.items ≡ found.old.items ++ scan ∷ []) }
{
    found.push(scan)?;
    Ok(())
}

/// What is seen of the files that are refused: a file is read once more where its reason speaks of its header.
///
/// # Errors
///
/// `ReadFault` where the library's read fails, and want of memory.
pub fn refused_scans<R: Files + Print + AllocGlobal, L: Library>(
    rt: &R,
    alloc: Global,
    library: &mut L,
    refused: &[RefusedFile],
) -> Result<Vec<RefusedScan>, LoadFault>
    ensures told { IfOk result (λ found. EachTwo (IsLookedAtAs (L.files library.old)) refused.now found.items) }
    ensures fault { result ≡ Err LoadFault.ReadFault → Rose (L.faults library.old) (L.faults library.new) }
    ensures files { L.files library.new ≡ L.files library.old }
    ensures later { L.faults library.old ≤ L.faults library.new }
{
    let mut found = Vec::new(alloc);
    for file in refused {
        let scan = looked_at(rt, alloc, library, file)?;
        put(&mut found, scan)?;
    }
    Ok(found)
}

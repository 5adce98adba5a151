//! A library in memory.
ghost use Rattle.std.specs.Prelude.{◌≡◌, ◌+◌, take, map, IfOk, option_map};
ghost use Rattle.pure_io.specs.Outside.{text_named};

use crate::failures::Failures;
use crate::library::{File, LibFault, Library, ReadFault};
use pure_text::Text;
use std::alloc::{AllocError, Global};
use std::marker::Model;
use std::rt::Files;

/// Files in memory, in a given order. Calls are counted from 0, over `names` and `read` together, and
/// those that are listed fail.
#[derive(Debug, Drop)]
pub struct MemLibrary {
    files: Vec<File>,
    failures: Failures,
}

impl Model for MemLibrary {
    ghost use Rattle.pure_io.specs.Memory.{LibraryState};

    ghost Value = { LibraryState };

    ghost view = { λ l. record {
      files = l.files.items;
      failing = l.failures.failing.items;
      calls = l.failures.calls;
      faults = l.failures.faults;
    } };
}

impl MemLibrary {
    ghost use Rattle.std.specs.Prelude.{◌≡◌, Some};

    /// The library of these files, of which the listed calls fail.
    pub fn make(files: Vec<File>, failing: Vec<u32>) -> MemLibrary
        ensures files { result.files ≡ files.items }
        ensures failing { result.failing ≡ failing.items }
        ensures calls { result.calls ≡ 0 }
        ensures faults { result.faults ≡ 0 }
        ensures told { ⟦<MemLibrary as Library>⟧.files result ≡ Some files.items }
        ensures count { ⟦<MemLibrary as Library>⟧.faults result ≡ 0 }
    {
        MemLibrary {
            files,
            failures: Failures::make(failing),
        }
    }
}

impl Library for MemLibrary {
    ghost use Rattle.std.specs.Prelude.{◌≡◌, ◌↔◌, ◌≤◌, ◌+◌, ℕ, List, [], Some, None, IfOk, take, map, length};
    ghost use Rattle.pure_io.specs.Memory.{NextFails, CountsCall};
    ghost use Rattle.pure_io.specs.Outside.{text_named, Rose};

    ghost files = { λ l. Some l.files };

    ghost faults = { λ l. l.faults };

    fn names<R: Files + Print + AllocGlobal>(
        &mut self,
        _rt: &R,
        alloc: Global,
    ) -> Result<Vec<Text>, LibFault>
        ensures told { IfOk result (λ ns. ns.items ≡ map (λ f. f.name) self.old.files) }
        ensures failed { (result ≡ Err LibFault.Failed) ↔ NextFails self.old }
        ensures rose { result ≡ Err LibFault.Failed → Rose self.old.faults self.new.faults }
        ensures after { CountsCall self.old self.new }
        ensures later { self.old.faults ≤ self.new.faults }
        ensures quiet { self.old.failing ≡ [] → self.new.faults ≡ self.old.faults }
    {
        if self.failures.count_call() {
            return Err(LibFault::Failed);
        }
        match names_of(alloc, self.files.as_slice()) {
            Ok(names) => Ok(names),
            Err(_) => Err(LibFault::Memory),
        }
    }

    fn read<R: Files + Print + AllocGlobal>(
        &mut self,
        _rt: &R,
        alloc: Global,
        name: &Text,
        limit: u32,
    ) -> Result<Text, ReadFault>
        ensures text { IfOk result (λ t.
            (bytes : List ℕ) × (text_named name.now self.old.files ≡ Some bytes) × (t ≡ take (limit + 1) bytes)) }
        ensures short { IfOk result (λ t. length t ≤ limit + 1) }
        ensures missing { (result ≡ Err ReadFault.Missing)
            ↔ ((¬ NextFails self.old) × (text_named name.now self.old.files ≡ None)) }
        ensures failed { (result ≡ Err ReadFault.Failed) ↔ NextFails self.old }
        ensures rose { result ≡ Err ReadFault.Failed → Rose self.old.faults self.new.faults }
        ensures after { CountsCall self.old self.new }
        ensures later { self.old.faults ≤ self.new.faults }
        ensures quiet { self.old.failing ≡ [] → self.new.faults ≡ self.old.faults }
    {
        if self.failures.count_call() {
            return Err(ReadFault::Failed);
        }
        let Some(file) = first_named(self.files.as_slice(), name) else {
            return Err(ReadFault::Missing);
        };
        match first_bytes(alloc, &file.text, limit) {
            Ok(text) => Ok(text),
            Err(_) => Err(ReadFault::Memory),
        }
    }
}

/// The names of the files, in their order.
fn names_of(alloc: Global, files: &[File]) -> Result<Vec<Text>, AllocError>
    ensures { IfOk result (λ ns. ns.items ≡ map (λ f. f.name) files.now) }
{
    let mut names = Vec::new(alloc);
    for file in files {
        names.push(file.name.copy(alloc)?)?;
    }
    Ok(names)
}

/// The first file of that name.
fn first_named<'f>(files: &'f [File], name: &Text) -> Option<&'f File>
    ensures { option_map (λ f. f.now.text) result ≡ text_named name.now files.now }
{
    for file in files {
        if file.name == *name {
            return Some(file);
        }
    }
    None
}

/// The first `limit + 1` bytes, or all of them where there are fewer.
fn first_bytes(alloc: Global, text: &Text, limit: u32) -> Result<Text, AllocError>
    ensures { IfOk result (λ t. t ≡ take (limit + 1) text.now) }
{
    let bytes = text.bytes();
    let end = bytes.len().min(limit as usize + 1);
    Text::make(alloc, &bytes[..end])
}

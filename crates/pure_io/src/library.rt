//! A library of files.
ghost use Rattle.std.specs.Prelude.{◌≡◌, ℕ, ◌+◌, ◌≤◌, List, length, take, map, Option, IfOk, IfSome};

use pure_text::Text;
use std::alloc::{AllocError, Global};
use std::rt::Files;

/// A file: its name and its bytes.
#[derive(Debug, Drop)]
pub struct File {
    pub name: Text,
    pub text: Text,
}

/// Why the names of the files aren't given.
#[derive(Clone, Copy, Debug, PartialEq, Eq)]
pub enum LibFault {
    Failed,
    Memory,
}

impl From<AllocError> for LibFault {
    ghost use Rattle.pure_io.specs.declared.library.LibFault.TheVariants.{Memory};
    ghost use Rattle.std.specs.Prelude.{◌≡◌};

    ghost from_gives = { λ _ fault. fault ≡ Memory };

    fn from(_: AllocError) -> LibFault {
        LibFault::Memory
    }
}

/// Why the bytes of a file aren't given.
#[derive(Clone, Copy, Debug, PartialEq, Eq)]
pub enum ReadFault {
    Missing,
    Failed,
    Memory,
}

impl From<AllocError> for ReadFault {
    ghost use Rattle.pure_io.specs.declared.library.ReadFault.TheVariants.{Memory};
    ghost use Rattle.std.specs.Prelude.{◌≡◌};

    ghost from_gives = { λ _ fault. fault ≡ Memory };

    fn from(_: AllocError) -> ReadFault {
        ReadFault::Memory
    }
}

/// Files that can be listed and read. A library may tell its files; it then answers by them.
pub trait Library {
    ghost use Rattle.pure_io.specs.declared.library.File.{File};
    ghost use Rattle.pure_io.specs.Outside.{text_named, Rose};

    // The files, where they are told.
    ghost files: { Self → Option (List File) };

    // How many faults there were.
    ghost faults: { Self → ℕ };

    /// The names of the files, in their order.
    fn names<R: Files + Print + AllocGlobal>(
        &mut self,
        rt: &R,
        alloc: Global,
    ) -> Result<Vec<Text>, LibFault>
        ensures told { IfOk result (λ ns. IfSome (files self.old) (λ fs. ns.items ≡ map (λ f. f.name) fs)) }
        ensures failed { result ≡ Err LibFault.Failed → Rose (faults self.old) (faults self.new) }
        ensures files { files self.new ≡ files self.old }
        ensures later { faults self.old ≤ faults self.new };

    /// The first `limit + 1` bytes of the first file of that name, or all of them where it has fewer.
    /// A call that is listed to fail answers `Failed`, also where the file is missing.
    fn read<R: Files + Print + AllocGlobal>(
        &mut self,
        rt: &R,
        alloc: Global,
        name: &Text,
        limit: u32,
    ) -> Result<Text, ReadFault>
        ensures text { IfOk result (λ t. IfSome (files self.old) (λ fs.
            (bytes : List ℕ) × (text_named name.now fs ≡ Some bytes) × (t ≡ take (limit + 1) bytes))) }
        ensures short { IfOk result (λ t. length t ≤ limit + 1) }
        ensures missing { result ≡ Err ReadFault.Missing → IfSome (files self.old) (λ fs. text_named name.now fs ≡ None) }
        ensures failed { result ≡ Err ReadFault.Failed → Rose (faults self.old) (faults self.new) }
        ensures files { files self.new ≡ files self.old }
        ensures later { faults self.old ≤ faults self.new };
}

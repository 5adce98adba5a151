//! Generated libraries, checked: their files stand in memory, so that reading them never fails.
ghost use Rattle.std.specs.Prelude.{◌≡◌, ◌≢◌, ◌≤◌, Err, List, Option};
ghost use Rattle.pure_io.specs.declared.library.File as library;
ghost use Rattle.pure_check.specs.Formed.{IsDone};
ghost use Rattle.pure_words.specs.declared.job.Job.TheVariants as job;

use crate::answer::Answer;
use crate::formed::Extent;
use crate::tables::{Asking, table_answer};
use pure_gen::generate;
use pure_graph::LoadFault;
use pure_io::{File, Gate, LibFault, Library, MemLibrary, ReadFault};
use pure_text::Text;
use std::alloc::Global;
use std::marker::Model;
use std::rt::Files;
use std::sync::Wait;
use std::thread::Threads;

/// Files in memory, of which each call succeeds. Contracts see the files.
#[derive(Drop)]
struct GeneratedFiles {
    library: MemLibrary,
}

impl Model for GeneratedFiles {
    ghost use Rattle.std.specs.Prelude.{◌≡◌, List, []};
    ghost use Rattle.pure_io.specs.declared.library.File.{File};

    ghost Value = { List File };

    ghost view = { λ g. g.library.files };

    ghost invariant = { λ g. g.library.failing ≡ [] };
}

impl GeneratedFiles {
    /// The library of these files.
    fn make(alloc: Global, files: Vec<File>) -> GeneratedFiles
        ensures { result ≡ files.items }
    {
        GeneratedFiles {
            library: MemLibrary::make(files, Vec::new(alloc)),
        }
    }
}

impl Library for GeneratedFiles {
    ghost use Rattle.std.specs.Prelude.{Some};

    ghost files = { λ files. Some files };

    ghost faults = { λ files. 0 };

    fn names<R: Files + Print + AllocGlobal>(
        &mut self,
        rt: &R,
        alloc: Global,
    ) -> Result<Vec<Text>, LibFault> {
        self.library.names(rt, alloc)
    }

    fn read<R: Files + Print + AllocGlobal>(
        &mut self,
        rt: &R,
        alloc: Global,
        name: &Text,
        limit: u32,
    ) -> Result<Text, ReadFault> {
        self.library.read(rt, alloc, name, limit)
    }
}

/// Has a generated library checked. It may wait for ever.
pub(crate) fn check_generated<R: Files + Print + AllocGlobal + Threads + Wait + Sync, G: Gate>(
    rt: &R,
    alloc: Global,
    workers: u32,
    start: u32,
    theories: u32,
    lemmas: u32,
    gate: &G,
) -> Result<Answer, LoadFault>
    requires { (1 ≤ workers) × (start ≤ 65536) × (theories ≤ 64) × (lemmas ≤ 512) }
    ensures ok { (told : Option (List library.File)) → IsDone (job.Generate workers start theories lemmas) told result }
    ensures read { result ≢ Err LoadFault.ReadFault }
{
    let Ok(files) = generate(alloc, start, theories, lemmas) else {
        return Err(LoadFault::Memory);
    };
    let mut library = GeneratedFiles::make(alloc, files);
    let asking = Asking {
        workers,
        fail_fast: false,
        cancels: &[],
    };
    table_answer(rt, alloc, &mut library, &asking, Extent::LastLine, gate)
}

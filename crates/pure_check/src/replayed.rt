//! A recorded derivation of the library, replayed.
ghost use Rattle.std.specs.Prelude.{◌≡◌, ◌≢◌, ◌≤◌, Ok, Err, Some, IfOk, None};
ghost use Rattle.pure_io.specs.Outside.{Rose};
ghost use Rattle.pure_replay.specs.Said as said;
ghost use Rattle.pure_check.specs.Formed.{IsDone};
ghost use Rattle.pure_check.specs.Jobs.Replay as spec;
ghost use Rattle.pure_check.specs.Replayed.{IsSaidOfRead};
ghost use Rattle.pure_io.specs.declared.library.ReadFault.TheVariants as reading;
ghost use Rattle.pure_words.specs.declared.job.Job.TheVariants as job;

use crate::answer::Answer;
use crate::formed::Formed;
use pure_graph::LoadFault;
use pure_io::{Library, ReadFault};
use pure_replay::{Said, no_line, said_of};
use pure_text::Text;
use std::alloc::{AllocError, Global};
use std::rt::Files;

/// The most bytes of a file.
const MAX_BYTES: u32 = 262_144;

/// The name of the file.
#[tactic(auto, unfolding(crate::specs::Jobs::Replay::file_end))]
fn file_of(alloc: Global, name: &[u8]) -> Result<Text, AllocError>
    ensures { IfOk result (λ file. file ≡ spec.file_of name.now) }
{
    let mut file = Vec::from_slice(alloc, name)?;
    file.extend_from_slice(b".drv")?;
    Ok(Text::from(file))
}

/// What is said of a file that may be too large.
#[tactic(auto, unfolding(crate::specs::Jobs::Replay::too_large_words))]
fn of_text(alloc: Global, text: &[u8]) -> Result<Said, AllocError>
    ensures { IfOk result (λ s. spec.IsSaidOfFile (Some text.now) s.text s.is_yes) }
{
    if text.len() > MAX_BYTES as usize {
        no_line(alloc, b"too large")
    } else {
        said_of(alloc, text)
    }
}

/// What was said, with want of memory as the one fault.
fn whole(said: Result<Said, AllocError>) -> Result<Said, LoadFault>
    ensures same { IfOk result (λ s. said ≡ Ok s) }
    ensures fault { result ≢ Err LoadFault.ReadFault }
{
    match said {
        Ok(said) => Ok(said),
        Err(_) => Err(LoadFault::Memory),
    }
}

/// What is said of what was read of a file.
#[tactic(auto, unfolding(crate::specs::Jobs::Replay::no_file_words))]
fn of_read(alloc: Global, read: &Result<Text, ReadFault>) -> Result<Said, LoadFault>
    ensures ok { IfOk result (λ s. IsSaidOfRead read.now s.text s.is_yes) }
    ensures fault { result ≡ Err LoadFault.ReadFault → read.now ≡ Err reading.Failed }
{
    match read {
        Ok(text) => whole(of_text(alloc, text.bytes())),
        Err(ReadFault::Missing) => whole(no_line(alloc, b"no file")),
        Err(ReadFault::Failed) => Err(LoadFault::ReadFault),
        Err(ReadFault::Memory) => Err(LoadFault::Memory),
    }
}

/// The answer, which hands out no board.
fn answer_of(said: Said) -> Answer
    ensures text { result.formed.text ≡ said.text }
    ensures clean { result.formed.clean ≡ said.is_yes }
    ensures run { result.run ≡ None }
{
    let Said { text, is_yes } = said;
    Answer {
        formed: Formed {
            text,
            clean: is_yes,
        },
        run: None,
    }
}

/// Reads the library's file that this name has with `.drv`, and says what comes of it as a recorded derivation. Neither the other files nor the
/// kernel are asked.
pub(crate) fn replayed<R: Files + Print + AllocGlobal, L: Library>(
    rt: &R,
    alloc: Global,
    name: &Text,
    library: &mut L,
) -> Result<Answer, LoadFault>
    ensures ok { IsDone (job.Replay name.now) (L.files library.old) result }
    ensures read_fault { result ≡ Err LoadFault.ReadFault → Rose (L.faults library.old) (L.faults library.new) }
    ensures files { L.files library.new ≡ L.files library.old }
    ensures later { L.faults library.old ≤ L.faults library.new }
{
    let Ok(file) = file_of(alloc, name.bytes()) else {
        return Err(LoadFault::Memory);
    };
    let read = library.read(rt, alloc, &file, MAX_BYTES);
    match of_read(alloc, &read) {
        Ok(said) => Ok(answer_of(said)),
        Err(fault) => Err(fault),
    }
}

//! Reading the first bytes of a file.
ghost use Rattle.std.specs.Prelude.{◌≡◌, ℕ, ◌+◌, ◌<◌, ◌≤◌, List, length, take, IfOk, IfErr, IfSome};
ghost use Rattle.std.specs.Io.KnownBytes.{Consumes, IsAtEnd};
ghost use Rattle.std.specs.Fs.{IsFile, file_type};
ghost use Rattle.std.specs.IoError.{error_kind};
ghost use Rattle.pure_io.specs.Reading.{read_fault_of, ConsumesAtMost};

use crate::library::ReadFault;
use pure_text::Text;
use std::alloc::Global;
use std::fs::Metadata;
use std::io::{ErrorKind, Read};
use std::rt::Files;
use std::{fs, io};

/// How many bytes are asked of the system at once, at most.
const CHUNK: usize = 4096;

/// The first `limit + 1` bytes of the file at a path, of which the system told this. Only a regular file is
/// opened: to open a pipe may wait for ever, and a device may give bytes without end.
pub(crate) fn read_regular<R: Files>(
    rt: &R,
    alloc: Global,
    path: &str,
    told: io::Result<Metadata>,
    limit: u32,
) -> Result<Text, ReadFault>
    ensures untold { IfErr told (λ error. result ≡ Err (read_fault_of (error_kind error))) }
    ensures irregular { IfOk told (λ metadata. ¬ IsFile (file_type metadata) → result ≡ Err ReadFault.Failed) }
    ensures short { IfOk result (λ t. length t ≤ limit + 1) }
{
    match told {
        Ok(metadata) if metadata.is_file() => read_opened(alloc, fs::open(rt, path), limit),
        Ok(_) => Err(ReadFault::Failed),
        Err(error) => Err(read_fault(&error)),
    }
}

/// The first `limit + 1` bytes of a file that the system opened, or all of them where it has fewer, or
/// what its error says.
fn read_opened<F: Read + Drop>(
    alloc: Global,
    opened: io::Result<F>,
    limit: u32,
) -> Result<Text, ReadFault>
    ensures unopened { IfErr opened (λ error. result ≡ Err (read_fault_of (error_kind error))) }
    ensures text { IfOk opened (λ file. IfOk result (λ t.
        IfSome (F.remaining file) (λ bytes. t ≡ take (limit + 1) bytes))) }
    ensures short { IfOk result (λ t. length t ≤ limit + 1) }
{
    match opened {
        Ok(mut file) => read_start(alloc, &mut file, limit),
        Err(error) => Err(read_fault(&error)),
    }
}

/// The first `limit + 1` bytes of the file, or all of them where it has fewer. Reads no others.
fn read_start<F: Read>(alloc: Global, file: &mut F, limit: u32) -> Result<Text, ReadFault>
    ensures text { IfOk result (λ t. Consumes (F.remaining file.old) (F.remaining file.new) t) }
    ensures short { IfOk result (λ t. length t ≤ limit + 1) }
    ensures whole { IfOk result (λ t. length t < limit + 1 → IsAtEnd (F.remaining file.new)) }
    ensures most { ConsumesAtMost (F.remaining file.old) (F.remaining file.new) (limit + 1) }
{
    let most = limit as usize + 1;
    let mut chunk = [0; CHUNK];
    let mut bytes = Vec::new(alloc);
    while bytes.len() < most {
        let end = CHUNK.min(most - bytes.len());
        let count = read_count(file.read(&mut chunk[..end]))?;
        if count == 0 {
            break;
        }
        bytes.extend_from_slice(&chunk[..count])?;
    }
    Ok(Text::from(bytes))
}

/// How many bytes a reading of the system gave, or what its error says.
fn read_count(read: io::Result<usize>) -> Result<usize, ReadFault>
    ensures count { IfOk read (λ count. result ≡ Ok count) }
    ensures fault { IfErr read (λ error. result ≡ Err (read_fault_of (error_kind error))) }
{
    match read {
        Ok(count) => Ok(count),
        Err(error) => Err(read_fault(&error)),
    }
}

/// What an error of the system means for a reading.
fn read_fault(error: &io::Error) -> ReadFault
    ensures { result ≡ read_fault_of (error_kind error.now) }
{
    match error.kind() {
        ErrorKind::NotFound => ReadFault::Missing,
        ErrorKind::OutOfMemory => ReadFault::Memory,
        _ => ReadFault::Failed,
    }
}

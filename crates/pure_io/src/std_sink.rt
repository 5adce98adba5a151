//! Standard output as a sink.
ghost use Rattle.std.specs.Prelude.{◌≡◌, ◌≤◌, ◌<◌, IfOk, OnErr, length};

use crate::sink::{Failed, Sink};
use std::io;
use std::marker::Model;
use std::rt::Files;
use std::thread::yield_now;

/// Standard output. Tells no bytes. Contracts see it as its count of faults.
#[derive(Debug, Drop)]
pub struct StdSink {
    faults: u64,
}

impl Model for StdSink {
    ghost use Rattle.std.specs.Prelude.{ℕ};

    ghost Value = { ℕ };

    ghost view = { λ s. s.faults };
}

impl StdSink {
    ghost use Rattle.std.specs.Prelude.{◌≡◌, None};

    /// Standard output, with no fault so far.
    pub fn make() -> StdSink
        ensures faults { result ≡ 0 }
        ensures told { ⟦<StdSink as Sink>⟧.written result ≡ None }
        ensures count { ⟦<StdSink as Sink>⟧.faults result ≡ 0 }
    {
        StdSink { faults: 0 }
    }
}

impl Sink for StdSink {
    ghost use Rattle.std.specs.Prelude.{◌≡◌, ◌≤◌, ◌<◌, None, IfOk, OnOk, OnErr, length};
    ghost use Rattle.pure_io.specs.Counts.{next_count};

    ghost written = { λ _. None };

    ghost faults = { λ s. s };

    fn write<R: Files + Print + AllocGlobal>(
        &mut self,
        rt: &R,
        piece: &[u8],
    ) -> Result<usize, Failed>
        ensures within { IfOk result (λ n. n ≤ length piece.now) }
        ensures some { IfOk result (λ n. 0 < length piece.now → 1 ≤ n) }
        ensures ok { OnOk result (self.new ≡ self.old) }
        ensures failed { OnErr result (self.new ≡ next_count self.old) }
        ensures later { self.old ≤ self.new }
    {
        let answer = answer_of(written_some(rt, piece), piece);
        if answer.is_err() {
            self.faults = self.faults.saturating_add(1);
        }
        answer
    }
}

/// Whether the system took nothing since it would have had to wait.
fn is_blocked(written: &io::Result<usize>) -> bool {
    match written {
        Ok(_) => false,
        Err(error) => error.kind() == io::ErrorKind::WouldBlock,
    }
}

/// Has the system write some bytes of the piece. Where standard output takes none now, as a full pipe that doesn't block, the
/// processor is left to others and the system asked again.
fn written_some<R: Files + Print + AllocGlobal>(rt: &R, piece: &[u8]) -> io::Result<usize>
    ensures { IfOk result (λ n. n ≤ length piece.now) }
{
    for _ in 0..u64::MAX {
        let written = rt.write_some(piece);
        if !is_blocked(&written) {
            return written;
        }
        yield_now();
    }
    rt.write_some(piece)
}

/// What a write of the system means for a sink: one that takes nothing of a piece that isn't empty
/// failed, too.
fn answer_of(written: io::Result<usize>, piece: &[u8]) -> Result<usize, Failed>
    ensures ok { IfOk result (λ n. written ≡ Ok n) }
    ensures some { IfOk result (λ n. 0 < length piece.now → 1 ≤ n) }
    ensures failed { OnErr result (IfOk written (λ n. (n ≡ 0) × (0 < length piece.now))) }
{
    match written {
        Ok(count) if count > 0 || piece.is_empty() => Ok(count),
        _ => Err(Failed),
    }
}

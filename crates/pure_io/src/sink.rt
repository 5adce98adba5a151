//! A sink of bytes.
ghost use Rattle.std.specs.Prelude.{◌≡◌, ℕ, ◌<◌, ◌≤◌, List, length, take, Option, IfOk, OnOk, OnErr};
ghost use Rattle.pure_io.specs.Outside.{Rose, Appends, AppendsProperPrefix};

use std::rt::Files;

/// A write failed.
#[derive(Clone, Copy, Debug, PartialEq, Eq)]
pub struct Failed;

/// What bytes are written to. A sink may tell the bytes that were written.
pub trait Sink {
    // The bytes written so far, where they are told.
    ghost written: { Self → Option (List ℕ) };

    // How many faults there were.
    ghost faults: { Self → ℕ };

    /// Writes the first bytes of the piece, and says how many.
    fn write<R: Files + Print + AllocGlobal>(
        &mut self,
        rt: &R,
        piece: &[u8],
    ) -> Result<usize, Failed>
        ensures within { IfOk result (λ n. n ≤ length piece.now) }
        ensures some { IfOk result (λ n. 0 < length piece.now → 1 ≤ n) }
        ensures written { IfOk result (λ n. Appends (written self.old) (written self.new) (take n piece.now)) }
        ensures failed { OnErr result (Rose (faults self.old) (faults self.new)) }
        ensures unwritten { OnErr result (written self.new ≡ written self.old) }
        ensures later { faults self.old ≤ faults self.new };
}

/// Writes the whole text, in as many writes as it takes. Takes no memory.
pub fn write_all<R: Files + Print + AllocGlobal, S: Sink>(
    rt: &R,
    out: &mut S,
    text: &[u8],
) -> Result<(), Failed>
    ensures ok { OnOk result (Appends (S.written out.old) (S.written out.new) text.now) }
    ensures failed { OnErr result
        (Rose (S.faults out.old) (S.faults out.new) × AppendsProperPrefix (S.written out.old) (S.written out.new) text.now) }
    ensures later { S.faults out.old ≤ S.faults out.new }
{
    let mut done = 0;
    while done < text.len() {
        let count = out.write(rt, &text[done..])?;
        done += count;
    }
    Ok(())
}

//! A sink in memory.

use crate::failures::Failures;
use crate::sink::{Failed, Sink};
use std::alloc::{AllocError, Global};
use std::marker::Model;
use std::rt::Files;

/// Keeps what is written in memory, up to a capacity that is reserved when it is made. Calls are
/// counted from 0, and those that are listed fail.
#[derive(Debug, Drop)]
pub struct MemSink {
    bytes: Vec<u8>,
    capacity: usize,
    width: usize,
    failures: Failures,
}

impl Model for MemSink {
    ghost use Rattle.std.specs.Prelude.{◌≤◌, ◌<◌, length, vec_capacity};
    ghost use Rattle.pure_io.specs.Memory.{SinkState};

    ghost Value = { SinkState };

    ghost view = { λ s. record {
      bytes = s.bytes.items;
      capacity = s.capacity;
      width = s.width;
      failing = s.failures.failing.items;
      calls = s.failures.calls;
      faults = s.failures.faults;
    } };

    ghost invariant = { λ s. (0 < s.width) × (length s.bytes.items ≤ s.capacity) × (s.capacity ≤ vec_capacity s.bytes) };
}

impl MemSink {
    ghost use Rattle.std.specs.Prelude.{◌≡◌, ◌≤◌, [], Some, IfOk};

    /// A sink with room for `capacity` bytes that takes at most `width` of them in one write, and of
    /// which the listed calls fail.
    pub fn make(
        alloc: Global,
        capacity: usize,
        width: usize,
        failing: Vec<u32>,
    ) -> Result<MemSink, AllocError>
        requires { 1 ≤ width }
        ensures bytes { IfOk result (λ s. s.bytes ≡ []) }
        ensures capacity { IfOk result (λ s. s.capacity ≡ capacity) }
        ensures width { IfOk result (λ s. s.width ≡ width) }
        ensures failing { IfOk result (λ s. s.failing ≡ failing.items) }
        ensures calls { IfOk result (λ s. s.calls ≡ 0) }
        ensures faults { IfOk result (λ s. s.faults ≡ 0) }
        ensures told { IfOk result (λ s. ⟦<MemSink as Sink>⟧.written s ≡ Some []) }
        ensures count { IfOk result (λ s. ⟦<MemSink as Sink>⟧.faults s ≡ 0) }
    {
        let bytes = Vec::with_capacity(alloc, capacity)?;
        Ok(MemSink {
            bytes,
            capacity,
            width,
            failures: Failures::make(failing),
        })
    }

    /// What was written.
    pub fn bytes(&self) -> &[u8]
        ensures { result.now ≡ self.now.bytes }
    {
        self.bytes.as_slice()
    }
}

impl Sink for MemSink {
    ghost use Rattle.std.specs.Prelude.{◌≡◌, ◌↔◌, ◌<◌, ◌≤◌, ◌++◌, Some, IsErr, IfOk, OnOk, OnErr, length, take};
    ghost use Rattle.pure_io.specs.Counts.{next_count};
    ghost use Rattle.pure_io.specs.Memory.{WriteFails, KeepsLimits, taken_count};

    ghost written = { λ s. Some s.bytes };

    ghost faults = { λ s. s.faults };

    fn write<R: Files + Print + AllocGlobal>(
        &mut self,
        _rt: &R,
        piece: &[u8],
    ) -> Result<usize, Failed>
        ensures fails { IsErr result ↔ WriteFails self.old piece.now }
        ensures count { IfOk result (λ n. n ≡ taken_count self.old piece.now) }
        ensures within { IfOk result (λ n. n ≤ length piece.now) }
        ensures some { IfOk result (λ n. 0 < length piece.now → 1 ≤ n) }
        ensures written { IfOk result (λ n. self.new.bytes ≡ self.old.bytes ++ take n piece.now) }
        ensures unwritten { OnErr result (self.new.bytes ≡ self.old.bytes) }
        ensures limits { KeepsLimits self.old self.new }
        ensures fault { OnErr result (self.new.faults ≡ next_count self.old.faults) }
        ensures no_fault { OnOk result (self.new.faults ≡ self.old.faults) }
        ensures later { self.old.faults ≤ self.new.faults }
    {
        if self.failures.count_call() {
            return Err(Failed);
        }
        let room = self.capacity - self.bytes.len();
        if room == 0 && !piece.is_empty() {
            self.failures.count_fault();
            return Err(Failed);
        }
        let count = piece.len().min(self.width).min(room);
        match self.bytes.extend_from_slice(&piece[..count]) {
            Ok(()) => Ok(count),
            Err(_) => unreachable!(),
        }
    }
}

//! Two workers of which each runs a proof while the other does: a gate holds the first proofs until that is seen.
use crate::files::files_of;
use crate::texts::text_of;
use crate::wanted::{Wanted, Written, is_shown};
use crate::words::status_named;
use crate::world::{World, run};
use pure_io::{File, Gate};
use pure_rows::{Fault, Row};
use std::alloc::{AllocError, Global};
use std::rt::Files;
use std::sync::Wait;
use std::sync::atomic::{AtomicU64, Ordering};
use std::thread::{Threads, yield_now};

/// How often a call that holds a proof looks before it gives up.
const TURNS: u32 = 1_000_000;

/// How often the gate was entered and left with a number.
#[derive(Drop)]
struct Calls {
    entered: AtomicU64,
    left: AtomicU64,
}

impl Calls {
    fn none() -> Calls {
        Calls {
            entered: AtomicU64::new(0),
            left: AtomicU64::new(0),
        }
    }

    fn is_entered(&self) -> bool {
        self.entered.load(Ordering::SeqCst) > 0
    }

    fn is_left(&self) -> bool {
        self.left.load(Ordering::SeqCst) > 0
    }

    /// Whether each call came once.
    fn came_once(&self) -> bool {
        self.entered.load(Ordering::SeqCst) == 1 && self.left.load(Ordering::SeqCst) == 1
    }
}

/// A gate for four proofs. It holds the first two until both were entered, and the first of them until the others were left.
#[derive(Drop)]
struct HoldingGate {
    first: Calls,
    second: Calls,
    third: Calls,
    fourth: Calls,
    /// Calls with another number, or that gave up.
    strange: AtomicU64,
}

impl HoldingGate {
    fn make() -> HoldingGate {
        HoldingGate {
            first: Calls::none(),
            second: Calls::none(),
            third: Calls::none(),
            fourth: Calls::none(),
            strange: AtomicU64::new(0),
        }
    }

    /// The calls with the number.
    fn calls(&self, number: u32) -> Option<&Calls> {
        match number {
            0 => Some(&self.first),
            1 => Some(&self.second),
            2 => Some(&self.third),
            3 => Some(&self.fourth),
            _ => None,
        }
    }

    /// Whether the proof with the number is held no longer.
    fn is_free(&self, number: u32) -> bool {
        let both = self.first.is_entered() && self.second.is_entered();
        match number {
            0 => both && self.second.is_left() && self.third.is_left() && self.fourth.is_left(),
            1 => both,
            _ => true,
        }
    }

    /// Counts a call that should not have come so.
    fn wonder(&self) {
        self.strange.fetch_add(1, Ordering::SeqCst);
    }

    /// Waits until the proof with the number is free, or gives up.
    fn hold(&self, number: u32) {
        for _ in 0..TURNS {
            if self.is_free(number) {
                return;
            }
            yield_now();
        }
        self.wonder();
    }

    /// Whether each call came once for each proof, no other came, and none gave up.
    fn was_passed(&self) -> bool {
        self.strange.load(Ordering::SeqCst) == 0
            && self.first.came_once()
            && self.second.came_once()
            && self.third.came_once()
            && self.fourth.came_once()
    }
}

impl Gate for HoldingGate {
    fn enter<R: Threads + Wait>(&self, _rt: &R, number: u32) {
        match self.calls(number) {
            Some(calls) => {
                calls.entered.fetch_add(1, Ordering::SeqCst);
            }
            None => self.wonder(),
        }
        self.hold(number);
    }

    fn left<R: Threads + Wait>(&self, _rt: &R, number: u32) {
        match self.calls(number) {
            Some(calls) => {
                calls.left.fetch_add(1, Ordering::SeqCst);
            }
            None => self.wonder(),
        }
    }
}

/// Whether a run on these files, with the words of the line, answers what is wanted, and passes the gate.
fn passes<R: Files + Print + AllocGlobal + Threads + Wait + Sync>(
    rt: &R,
    alloc: Global,
    files: &[File],
    line: &[u8],
    wanted: Wanted,
) -> Result<bool, AllocError> {
    let gate = HoldingGate::make();
    let got = run(rt, alloc, World::of_files(files), line, &gate)?;
    Ok(is_shown(rt, wanted, &got) && gate.was_passed())
}

/// Whether the files of these fields are checked so.
fn holds_files<R: Files + Print + AllocGlobal + Threads + Wait + Sync>(
    rt: &R,
    alloc: Global,
    fields: &[Vec<u8>],
    line: &[u8],
    wanted: Wanted,
) -> Result<bool, Fault> {
    let files = files_of(alloc, fields)?;
    Ok(passes(rt, alloc, &files, line, wanted)?)
}

/// Whether the row `holds WORDS STATUS TEXT NAME TEXT ..` holds.
pub(crate) fn holds<R: Files + Print + AllocGlobal + Threads + Wait + Sync>(
    rt: &R,
    alloc: Global,
    row: &Row,
) -> Result<bool, Fault> {
    let [_, line, status, text, ..] = row.fields_from(0) else {
        return Err(Fault::Unreadable);
    };
    let status = status_named(status)?;
    let text = text_of(alloc, text)?;
    let wanted = Wanted {
        status,
        written: Written::Whole(&text),
    };
    holds_files(rt, alloc, row.fields_from(4), line, wanted)
}

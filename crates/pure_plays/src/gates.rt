//! Gates that see whether proofs run at once.
use crossbeam_utils::Backoff;
use pure_io::Gate;
use std::sync::Wait;
use std::sync::atomic::{AtomicU64, Ordering};
use std::thread::Threads;

/// A gate before which each proof waits until so many have entered, and gives up after so many turns.
#[derive(Drop)]
pub struct Meeting {
    wanted: u64,
    turns: u32,
    entered: AtomicU64,
    left: AtomicU64,
    given_up: AtomicU64,
}

impl Meeting {
    /// Nobody has entered yet.
    pub fn make(wanted: u64, turns: u32) -> Meeting {
        Meeting {
            wanted,
            turns,
            entered: AtomicU64::new(0),
            left: AtomicU64::new(0),
            given_up: AtomicU64::new(0),
        }
    }

    /// How many proofs have entered.
    pub fn entered(&self) -> u64 {
        self.entered.load(Ordering::SeqCst)
    }

    /// How many proofs have left.
    pub fn left(&self) -> u64 {
        self.left.load(Ordering::SeqCst)
    }

    /// How many of them gave up.
    pub fn given_up(&self) -> u64 {
        self.given_up.load(Ordering::SeqCst)
    }

    /// Whether so many entered before the turns were over.
    fn meet(&self) -> bool {
        let backoff = Backoff::new();
        for _ in 0..self.turns {
            if self.entered() >= self.wanted {
                return true;
            }
            backoff.snooze();
        }
        false
    }
}

impl Gate for Meeting {
    fn enter<R: Threads + Wait>(&self, _rt: &R, _number: u32) {
        self.entered.fetch_add(1, Ordering::SeqCst);
        if !self.meet() {
            self.given_up.fetch_add(1, Ordering::SeqCst);
        }
    }

    fn left<R: Threads + Wait>(&self, _rt: &R, _number: u32) {
        self.left.fetch_add(1, Ordering::SeqCst);
    }
}

//! Where workers rest that find nothing to do.
use std::sync::Wait;
use std::sync::atomic::{AtomicU64, Ordering};

/// How often something was changed, and how many rest until it is changed again.
#[derive(Drop)]
pub(crate) struct Rest {
    changes: AtomicU64,
    resting: AtomicU64,
}

impl Rest {
    /// Nothing was changed yet, and nobody rests.
    pub fn new() -> Rest {
        Rest {
            changes: AtomicU64::new(0),
            resting: AtomicU64::new(0),
        }
    }

    /// How often something was changed, up to a multiple of 2 ^ 32.
    pub fn changes(&self) -> u32 {
        (self.changes.load(Ordering::SeqCst) % (1 << 32)) as u32
    }

    /// Sleeps while nothing was changed since this count; it may also return sooner.
    pub fn sleep<R: Wait>(&self, rt: &R, changes: u32) {
        self.resting.fetch_add(1, Ordering::SeqCst);
        self.changes.park(rt, changes);
        self.resting.fetch_sub(1, Ordering::SeqCst);
    }

    /// Counts a change with which one more may go to work, and wakes one that sleeps.
    pub fn wake_one(&self) {
        self.changes.fetch_add(1, Ordering::SeqCst);
        if self.resting.load(Ordering::SeqCst) > 0 {
            self.changes.wake_one();
        }
    }

    /// Counts a change that may concern all, and wakes all that sleep.
    pub fn wake_all(&self) {
        self.changes.fetch_add(1, Ordering::SeqCst);
        if self.resting.load(Ordering::SeqCst) > 0 {
            self.changes.wake_all();
        }
    }
}

//! How a step that takes long learns of cancellations.
use pure_watch::Watch;
use std::sync::atomic::{AtomicU64, Ordering};

/// How many groups are cancelled, as far as the workers told each other; once one of them stopped the work, more than there are.
#[derive(Drop)]
pub(crate) struct Cancellations {
    known: AtomicU64,
}

impl Cancellations {
    /// No group is known to be cancelled.
    pub fn new() -> Cancellations {
        Cancellations {
            known: AtomicU64::new(0),
        }
    }

    /// How many are known to be.
    pub fn known(&self) -> u64 {
        self.known.load(Ordering::SeqCst)
    }

    /// Tells that so many are. Where as many are known already it costs one load.
    pub fn tell(&self, groups: u64) {
        if groups > self.known() {
            self.known.fetch_max(groups, Ordering::SeqCst);
        }
    }

    /// Tells that the work was stopped.
    pub fn tell_stop(&self) {
        self.tell(u64::MAX);
    }

    /// Lets a step go on until more are known than these.
    pub fn until_more(&self, begun: u64) -> UntilMore<'_> {
        UntilMore { begun, now: self }
    }
}

/// Lets a step go on until more groups are known to be cancelled than when it began.
#[derive(Clone, Copy)]
pub(crate) struct UntilMore<'a> {
    begun: u64,
    now: &'a Cancellations,
}

impl<'a> Watch for UntilMore<'a> {
    ghost may_say = { λ _ _. Unit {0} };

    fn goes_on(&self) -> bool {
        self.now.known() == self.begun
    }
}

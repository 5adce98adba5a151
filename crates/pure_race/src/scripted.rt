//! Attempts as tests have them: they count what is started and stepped.
ghost use Rattle.std.specs.Prelude.{◌≡◌, ◌<◌, nat_le};

use crate::attempts::Attempts;
use crate::wins::Wins;
use std::alloc::{AllocError, Global};
use std::sync::atomic::{AtomicU32, Ordering};
use std::thread;

/// How often a start looks whether the other one was called.
const TURNS: u32 = 1_000_000;

/// So many attempts, each of so many steps, that win from a number on. Where they meet, the starts of the first two hold each
/// other until both were called.
#[derive(Drop)]
pub(crate) struct Scripted {
    pub count: u32,
    pub from: u32,
    pub steps: u32,
    pub meet: bool,
    pub first: AtomicU32,
    pub second: AtomicU32,
    pub alone: AtomicU32,
    pub started: AtomicU32,
    pub stepped: AtomicU32,
}

impl Scripted {
    pub fn new(count: u32, from: u32, steps: u32, meet: bool) -> Scripted {
        Scripted {
            count,
            from,
            steps,
            meet,
            first: AtomicU32::new(0),
            second: AtomicU32::new(0),
            alone: AtomicU32::new(0),
            started: AtomicU32::new(0),
            stepped: AtomicU32::new(0),
        }
    }

    /// Tells that this start was called, and holds until the other one was; where it wasn't it counts that.
    fn meet(&self, own: &AtomicU32, other: &AtomicU32) {
        own.store(1, Ordering::SeqCst);
        for _ in 0..TURNS {
            if other.load(Ordering::SeqCst) == 1 {
                return;
            }
            thread::yield_now();
        }
        self.alone.fetch_add(1, Ordering::SeqCst);
    }
}

/// The steps that an attempt has left.
#[derive(Drop)]
pub(crate) struct Steps {
    left: u32,
}

impl Attempts for Scripted {
    ghost use Rattle.std.specs.Prelude.{false};

    type Trying = Steps;

    ghost many = { λ s. s.count };

    ghost wins = { λ s n won. won ≡ nat_le s.from n };

    ghost tries = { λ _ _ _. Unit {0} };

    ghost lacks = { λ _. false };

    ghost steps_left = { λ t. t.left };

    fn count(&self) -> u32 {
        self.count
    }

    fn start(&self, number: u32) -> Result<Steps, AllocError> {
        self.started.fetch_add(1, Ordering::SeqCst);
        if self.meet && number == 0 {
            self.meet(&self.first, &self.second);
        }
        if self.meet && number == 1 {
            self.meet(&self.second, &self.first);
        }
        Ok(Steps { left: self.steps })
    }

    fn advance(&self, number: u32, trying: &mut Steps) -> Result<Option<bool>, AllocError> {
        self.stepped.fetch_add(1, Ordering::SeqCst);
        if trying.left > 0 {
            trying.left -= 1;
            return Ok(None);
        }
        Ok(Some(self.from <= number))
    }
}

/// Two attempts of three steps each, that lose. The first step that is made tells that attempt 0 wins.
#[derive(Drop)]
pub(crate) struct Beaten<'a> {
    pub wins: &'a Wins,
    pub alloc: Global,
}

impl<'a> Attempts for Beaten<'a> {
    ghost use Rattle.std.specs.Prelude.{false};

    type Trying = Steps;

    ghost many = { λ _. 2 };

    ghost wins = { λ _ _ won. won ≡ false };

    ghost tries = { λ _ _ _. Unit {0} };

    ghost lacks = { λ _. false };

    ghost steps_left = { λ t. t.left };

    fn count(&self) -> u32 {
        2
    }

    fn start(&self, _number: u32) -> Result<Steps, AllocError> {
        Ok(Steps { left: 3 })
    }

    fn advance(&self, _number: u32, trying: &mut Steps) -> Result<Option<bool>, AllocError> {
        if trying.left > 0 {
            let _told = self.wins.tell(self.alloc, 0, 0);
            trying.left -= 1;
            return Ok(None);
        }
        Ok(Some(false))
    }
}

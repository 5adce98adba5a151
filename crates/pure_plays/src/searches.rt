//! A work of which some proofs search until they are broken off.
ghost use Rattle.std.specs.Prelude.{◌≡◌};

use crossbeam_utils::Backoff;
use pure_core::{Turn, Work};
use pure_trials::{Lemmas, Proof, Session};
use pure_watch::Watch;
use std::alloc::AllocError;
use std::sync::Arc;
use std::sync::atomic::{AtomicU64, Ordering};

/// How many times a proof looks for what it waits for.
const LOOKS: u32 = 1_000_000;

/// What comes of the proofs that don't search.
#[derive(Clone, Copy)]
pub enum Ending {
    Proved,
    Fault,
    NoMemory,
}

/// A session, run so: the proof of a lemma that doesn't fail searches until its watch breaks it off, and ends at once where a search
/// was begun before; the proof of another waits until a search was begun, and ends so. Whoever has looked too often gives up.
#[derive(Drop)]
pub struct Searches {
    session: Session,
    ending: Ending,
    begun: AtomicU64,
    broken: AtomicU64,
}

impl Searches {
    /// No search was begun yet.
    pub fn make(session: Session, ending: Ending) -> Searches
        ensures { result.session ≡ session }
    {
        Searches {
            session,
            ending,
            begun: AtomicU64::new(0),
            broken: AtomicU64::new(0),
        }
    }

    /// The session.
    pub fn session(&self) -> &Session
        ensures { result.now ≡ self.now.session }
    {
        &self.session
    }

    /// How many searches were begun.
    pub fn begun(&self) -> u64 {
        self.begun.load(Ordering::SeqCst)
    }

    /// How many of them were broken off.
    pub fn broken(&self) -> u64 {
        self.broken.load(Ordering::SeqCst)
    }

    /// Searches, if no search was begun before; an error where the watch breaks it off.
    fn search<V: Watch>(&self, watch: &V) -> Result<bool, AllocError> {
        if self.begun.fetch_add(1, Ordering::SeqCst) > 0 {
            return Ok(false);
        }
        let backoff = Backoff::new();
        for _ in 0..LOOKS {
            if !watch.goes_on() {
                self.broken.fetch_add(1, Ordering::SeqCst);
                return Err(AllocError);
            }
            backoff.snooze();
        }
        Ok(false)
    }

    /// Waits until a search was begun.
    fn wait(&self) {
        let backoff = Backoff::new();
        for _ in 0..LOOKS {
            if self.begun() > 0 {
                return;
            }
            backoff.snooze();
        }
    }

    /// Whether a proof that doesn't search ends in a fault.
    fn end(&self) -> Result<bool, AllocError> {
        self.wait();
        match self.ending {
            Ending::Proved => Ok(false),
            Ending::Fault => Ok(true),
            Ending::NoMemory => Err(AllocError),
        }
    }
}

impl Work for Searches {
    ghost use Rattle.std.specs.Prelude.{ℕ, List, Bool, length};

    type Goal = bool;

    type Closed = u32;

    type Outcome = bool;

    type Run = Lemmas;

    type Proving = Proof;

    ghost shape = { λ s. s.session.shape.items };

    ghost forks = { λ s i n c g. Unit {0} };

    ghost closes = { λ s i n c. Unit {0} };

    ghost may = { λ s g o. Unit {0} };

    ghost faults = { λ s o. o };

    ghost runs = { λ s i n r. Unit {0} };

    ghost turns_left = { λ r. length r.left.items };

    ghost proves = { λ s g p. Unit {0} };

    ghost steps_left = { λ p. p.steps };

    fn begin(&self, theory: u32, parents: &[Arc<u32>]) -> Result<Lemmas, AllocError> {
        self.session.begin(theory, parents)
    }

    fn command(&self, run: &mut Lemmas) -> Result<Turn<bool, u32>, AllocError> {
        self.session.command(run)
    }

    fn start(&self, goal: &bool) -> Result<Proof, AllocError> {
        self.session.start(goal)
    }

    fn advance<V: Watch>(
        &self,
        goal: &bool,
        _proving: &mut Proof,
        watch: &V,
    ) -> Result<Option<bool>, AllocError> {
        let outcome = if *goal {
            self.end()?
        } else {
            self.search(watch)?
        };
        Ok(Some(outcome))
    }

    fn is_fault(&self, outcome: &bool) -> bool {
        *outcome
    }
}

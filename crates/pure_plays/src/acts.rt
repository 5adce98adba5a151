//! A work whose commands and proofs act so that it can be told what runs at once.
ghost use Rattle.std.specs.Prelude.{◌≡◌};

use pure_core::{Turn, Work};
use pure_io::Gate;
use pure_trials::{Proof, Session};
use pure_watch::Watch;
use std::alloc::AllocError;
use std::sync::atomic::{AtomicU64, Ordering};
use std::sync::{Arc, Wait};
use std::thread::Threads;

/// How many times is looked for marks. Looks don't yield, since on a busy machine a yield takes a million times as long.
const LOOKS: u32 = 1_000_000_000;

/// How many looks a pause takes.
const PAUSE: u32 = 20_000_000;

/// How many looks a step of a walk takes.
const STEP: u32 = 20_000;

/// How many steps a walk has.
const STEPS: u32 = 40_000;

/// What a command or a proof does: it pauses, so long that who finds nothing to do sleeps; waits for marks; makes a mark and waits; makes
/// a mark and takes many steps; waits and is a fault; or pauses and wants memory.
#[derive(Clone, Copy)]
pub enum Act {
    Pause,
    Wait,
    Meet,
    Walk,
    Fault,
    NoMemory,
}

/// A command of a theory: it acts, or forks a proof that does.
#[derive(Clone, Copy)]
pub enum Command {
    Acts(Act),
    Forks(Act),
}

/// The commands of a theory that are left, the last first, and how many were run.
#[derive(Drop)]
pub struct Commands {
    pub left: Vec<Command>,
    pub count: u32,
}

/// Theories with such commands. Who waits gives up after so many looks; a gate at which each proof that was delivered waits, too.
#[derive(Drop)]
pub struct Acts {
    session: Session,
    commands: Vec<Vec<Command>>,
    wanted: u64,
    wanted_after: u64,
    marks: AtomicU64,
    given_up: AtomicU64,
    walked: AtomicU64,
}

impl Acts {
    /// The theories of this session's shape with these commands, those of each the last first; who waits wants so many marks, and at the
    /// gate so many.
    pub fn make(
        session: Session,
        commands: Vec<Vec<Command>>,
        wanted: u32,
        wanted_after: u32,
    ) -> Acts
        ensures { result.session ≡ session }
    {
        Acts {
            session,
            commands,
            wanted: u64::from(wanted),
            wanted_after: u64::from(wanted_after),
            marks: AtomicU64::new(0),
            given_up: AtomicU64::new(0),
            walked: AtomicU64::new(0),
        }
    }

    /// The session.
    pub fn session(&self) -> &Session
        ensures { result.now ≡ self.now.session }
    {
        &self.session
    }

    /// How many marks were made.
    pub fn marks(&self) -> u64 {
        self.marks.load(Ordering::SeqCst)
    }

    /// How often who waited gave up.
    pub fn given_up(&self) -> u64 {
        self.given_up.load(Ordering::SeqCst)
    }

    /// How many walks went to their end.
    pub fn walked(&self) -> u64 {
        self.walked.load(Ordering::SeqCst)
    }

    /// Makes a mark.
    fn mark(&self) {
        self.marks.fetch_add(1, Ordering::SeqCst);
    }

    /// Looks so many times.
    fn pause(&self, looks: u32) {
        for _ in 0..looks {
            self.marks();
        }
    }

    /// Waits until so many marks were made, or gives up.
    fn wait(&self, wanted: u64) {
        for _ in 0..LOOKS {
            if self.marks() >= wanted {
                return;
            }
        }
        self.given_up.fetch_add(1, Ordering::SeqCst);
    }

    /// Does what a command or a proof's first step does.
    fn act(&self, act: Act) {
        match act {
            Act::Pause => self.pause(PAUSE),
            Act::Wait => self.wait(self.wanted),
            Act::Meet => {
                self.mark();
                self.wait(self.wanted);
            }
            Act::Walk => self.mark(),
            Act::Fault => self.wait(self.wanted),
            Act::NoMemory => self.pause(PAUSE),
        }
    }

    /// The outcome of a proof that doesn't walk.
    fn end(&self, act: Act) -> Result<bool, AllocError> {
        self.act(act);
        match act {
            Act::Fault => Ok(true),
            Act::NoMemory => Err(AllocError),
            _ => Ok(false),
        }
    }
}

impl Gate for Acts {
    fn enter<R: Threads + Wait>(&self, _rt: &R, _number: u32) {}

    fn left<R: Threads + Wait>(&self, _rt: &R, _number: u32) {
        self.wait(self.wanted_after);
    }
}

impl Work for Acts {
    ghost use Rattle.std.specs.Prelude.{ℕ, List, Bool, length};

    type Goal = Act;

    type Closed = u32;

    type Outcome = bool;

    type Run = Commands;

    type Proving = Proof;

    ghost shape = { λ s. s.session.shape.items };

    ghost forks = { λ s i n c g. Unit {0} };

    ghost closes = { λ s i n c. Unit {0} };

    ghost may = { λ s g o. Unit {0} };

    ghost faults = { λ s o. o };

    ghost runs = { λ s i n r. Unit {0} };

    ghost turns_left = { λ r. length r.left.items };

    ghost proves = { λ s g p. Unit {0} };

    ghost steps_left = { λ p. p.steps };

    fn begin(&self, theory: u32, _parents: &[Arc<u32>]) -> Result<Commands, AllocError> {
        let place = (theory as usize).saturating_sub(1);
        match self.commands.get(place) {
            None => Err(AllocError),
            Some(commands) => Ok(Commands {
                left: commands.clone()?,
                count: 0,
            }),
        }
    }

    fn command(&self, run: &mut Commands) -> Result<Turn<Act, u32>, AllocError> {
        let command = run.count;
        run.count = command.wrapping_add(1);
        match run.left.pop() {
            None => Ok(Turn::Closed { closed: 7 }),
            Some(Command::Forks(goal)) => Ok(Turn::Forked { command, goal }),
            Some(Command::Acts(act)) => {
                self.act(act);
                Ok(Turn::Declared)
            }
        }
    }

    fn start(&self, goal: &Act) -> Result<Proof, AllocError> {
        match goal {
            Act::Walk => {
                self.mark();
                Ok(Proof { steps: STEPS })
            }
            _ => Ok(Proof { steps: 0 }),
        }
    }

    fn advance<V: Watch>(
        &self,
        goal: &Act,
        proving: &mut Proof,
        _watch: &V,
    ) -> Result<Option<bool>, AllocError> {
        let Act::Walk = *goal else {
            return Ok(Some(self.end(*goal)?));
        };
        if proving.steps == 0 {
            self.walked.fetch_add(1, Ordering::SeqCst);
            return Ok(Some(false));
        }
        self.pause(STEP);
        proving.steps = proving.steps - 1;
        Ok(None)
    }

    fn is_fault(&self, outcome: &bool) -> bool {
        *outcome
    }
}

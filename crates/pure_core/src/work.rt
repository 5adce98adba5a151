//! The work that a core hands out: theories whose commands fork goals, and proofs of these goals.
use pure_watch::Watch;
use std::alloc::AllocError;
use std::sync::Arc;

/// What a turn of a theory's commands gives: nothing to prove; a goal, under the command at this place, from 0; or what closes
/// the theory.
#[derive(Drop)]
pub enum Turn<G, C> {
    Declared,
    Forked { command: u32, goal: G },
    Closed { closed: C },
}

/// The work of a session: what its theories fork, what closes them, and which outcomes goals have (Wenzel, Parallel Proof
/// Checking in Isabelle/Isar, 2009).
pub trait Work: Send + Sync {
    ghost use Rattle.std.specs.Prelude.{◌≡◌, ◌<◌, ℕ, List, Bool, map, Option, Some, IfOk, OnErr};
    ghost use Rattle.pure_text.specs.Lists.{EachTwo};
    ghost use Rattle.pure_machine.specs.State.{parents_at};
    ghost use Rattle.pure_core.specs.Turns.{IsTurn, IsRunKept, IsAdvance};

    type Goal: Send + Sync + Drop;

    type Closed: Send + Sync + Drop;

    type Outcome: Send + Sync + Drop;

    type Run: Send + Sync + Drop;

    type Proving: Send + Sync + Drop;

    // The numbers of the parents of each theory, of which the first has number 1.
    ghost shape: { Self → List (List ℕ) };

    // The goal that a theory may fork after so many others, and under which command: its place, from 0.
    ghost forks: { Self → ℕ → ℕ → ℕ → Self.Goal → Type 0 };

    // The value that closes a theory after so many forks.
    ghost closes: { Self → ℕ → ℕ → Self.Closed → Type 0 };

    // The outcome that a goal may have.
    ghost may: { Self → Self.Goal → Self.Outcome → Type 0 };

    // Which outcomes are faults.
    ghost faults: { Self → Self.Outcome → Bool };

    // The run of a theory that has made so many forks, and how many turns it has left.
    ghost runs: { Self → ℕ → ℕ → Self.Run → Type 0 };

    ghost turns_left: { Self.Run → ℕ };

    // The proof of a goal under way, and how many turns it has left.
    ghost proves: { Self → Self.Goal → Self.Proving → Type 0 };

    ghost steps_left: { Self.Proving → ℕ };

    /// The run of a theory, from the values that closed its parents.
    fn begin(&self, theory: u32, parents: &[Arc<Self::Closed>]) -> Result<Self::Run, AllocError>
        requires { (numbers : List ℕ) × (parents_at (shape self.now) theory ≡ Some numbers)
            × EachTwo (λ i c. (n : ℕ) × closes self.now i n c.value) numbers parents.now }
        ensures { IfOk result (λ run. runs self.now theory 0 run) };

    /// One turn of a theory's run that hasn't closed. Where memory is wanted the run is as it was.
    fn command(&self, run: &mut Self::Run) -> Result<Turn<Self::Goal, Self::Closed>, AllocError>
        requires { (i : ℕ) × (n : ℕ) × runs self.now i n run.old }
        ensures turn { IfOk result (λ turn. (i n : ℕ) → runs self.now i n run.old
            → IsTurn (forks self.now) (closes self.now) (runs self.now) turns_left i n run.old run.new turn) }
        ensures keeps { OnErr result (IsRunKept (runs self.now) turns_left run.old run.new) };

    /// The proof of a goal that a theory may fork, before its first step.
    fn start(&self, goal: &Self::Goal) -> Result<Self::Proving, AllocError>
        requires { (i : ℕ) × (n : ℕ) × (command : ℕ) × forks self.now i n command goal.now }
        ensures { IfOk result (λ proving. proves self.now goal.now proving) };

    /// One step of a proof that has given no outcome yet; none where steps are left and none failed.
    ///
    /// # Errors
    ///
    /// Want of memory, or the watch broke the step off. Nothing is known of the proof then.
    fn advance<V: Watch>(
        &self,
        goal: &Self::Goal,
        proving: &mut Self::Proving,
        watch: &V,
    ) -> Result<Option<Self::Outcome>, AllocError>
        requires { proves self.now goal.now proving.old }
        ensures { IfOk result (λ outcome. IsAdvance (proves self.now) (may self.now) steps_left goal.now proving.old proving.new outcome) };

    /// Whether the outcome is a fault.
    fn is_fault(&self, outcome: &Self::Outcome) -> bool
        ensures { result ≡ faults self.now outcome.now };
}

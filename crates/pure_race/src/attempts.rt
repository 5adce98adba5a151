//! Attempts that are told apart by numbers.
use std::alloc::AllocError;

/// Attempts with the numbers from 0 on. Each of them wins or doesn't, whoever tries it and how often.
pub trait Attempts: Sync {
    ghost use Rattle.std.specs.Prelude.{◌≡◌, ◌<◌, ℕ, Bool, true, IfOk, OnOk, OnErr, MatchOption};

    type Trying: Send + Sync + Drop;

    // How many attempts there are.
    ghost many: { Self → ℕ };

    // That the attempt of this number wins, or doesn't.
    ghost wins: { Self → ℕ → Bool → Type 0 };

    // The attempt of this number under way, which hasn't told yet whether it wins.
    ghost tries: { Self → ℕ → Self.Trying → Type 0 };

    // Whether the attempt has wanted memory.
    ghost lacks: { Self.Trying → Bool };

    // A bound on the steps that an attempt has left.
    ghost steps_left: { Self.Trying → ℕ };

    /// How many attempts there are: their numbers are below it.
    fn count(&self) -> u32
        ensures { result ≡ many self.now };

    /// The attempt of this number before its first step.
    fn start(&self, number: u32) -> Result<Self::Trying, AllocError>
        requires { number < many self.now }
        ensures { IfOk result (λ trying. tries self.now number trying) };

    /// One step of an attempt that hasn't told yet whether it wins; none exactly where steps are left, and else whether it wins.
    ///
    /// # Errors
    ///
    /// Want of memory. The attempt answers it from then on.
    fn advance(&self, number: u32, trying: &mut Self::Trying) -> Result<Option<bool>, AllocError>
        requires number { number < many self.now }
        requires trying { tries self.now number trying.old }
        ensures told { IfOk result (λ told. MatchOption told
            (tries self.now number trying.new × (steps_left trying.new < steps_left trying.old)) (λ won. wins self.now number won)) }
        ensures lacks { OnErr result (tries self.now number trying.new × (lacks trying.new ≡ true)) }
        ensures stays { lacks trying.old ≡ true → OnOk result ⊥ };
}

//! Lemmas with what became of them.
use pure_typ::Label;

/// A lemma, as fates ask of it.
pub trait Reported {
    ghost use Rattle.std.specs.Prelude.{◌≡◌, ◌↔◌, IsTrue, MatchOption};
    ghost use Rattle.pure_promise_fates.specs.Entries.{Entry, Shown, Fault, IsNotShown};

    // Its label, and what became of it.
    ghost entry: { Self → Entry };

    /// The label of its promise.
    fn label(&self) -> Label
        ensures { result ≡ (entry self.now).label };

    /// The promises on which its proof rests; none exactly where no proof shows it.
    fn rests(&self) -> Option<&[Label]>
        ensures { MatchOption result (IsNotShown (entry self.now).own) (λ rests. (entry self.now).own ≡ Shown rests.now) };

    /// Whether its proof is at fault.
    fn is_fault(&self) -> bool
        ensures { IsTrue result ↔ ((entry self.now).own ≡ Fault) };
}

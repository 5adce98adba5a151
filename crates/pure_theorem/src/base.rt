//! The theory over which an inference is drawn.
use pure_term::{Label, Name, Term};

/// A theory, as inferences ask it: its axioms and its promises.
pub trait Base {
    ghost use Rattle.std.specs.Prelude.{MatchOption};
    ghost use Rattle.pure_logic.specs.Content.{Content};
    ghost use Rattle.pure_theorem.specs.Facts.{IsAxiom, HasNoAxiom, IsPromise, HasNoPromise};

    // The content of the theory.
    ghost content: { Self → Content };

    /// The proposition of the axiom of this name; none exactly where there is no such axiom.
    fn axiom_prop(&self, name: Name) -> Option<&Term>
        ensures { MatchOption result (HasNoAxiom (content self.now) name) (λ A. IsAxiom (content self.now) name A.now) };

    /// The statement of the promise of this label; none exactly where there is no such promise.
    fn promise_prop(&self, label: Label) -> Option<&Term>
        ensures { MatchOption result (HasNoPromise (content self.now) label) (λ A. IsPromise (content self.now) label A.now) };
}

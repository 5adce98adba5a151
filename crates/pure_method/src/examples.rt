//! Examples of proofs: each is the contract of a function that does nothing.
ghost use Rattle.pure_method.specs.Examples.{AssumptionExample, ClosedExample, SecondStepExample, FirstStepExample, LeftExample, DerivableExample, LocalExample};

/// `A ==> A` is proved by assumption, and so where subgoals are closed; and then it is derivable.
pub fn proved_examples()
    ensures assumption { AssumptionExample }
    ensures closed { ClosedExample }
    ensures derivable { DerivableExample }
{}

/// The numbers of steps that fail.
pub fn failed_examples()
    ensures second { SecondStepExample }
    ensures first { FirstStepExample }
    ensures left { LeftExample }
{}

/// A fact that is local to a lemma is found in its proofs alone.
pub fn local_example()
    ensures { LocalExample }
{}

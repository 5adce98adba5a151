//! What goals mean, by worked examples, each carried by the contract of a function that does nothing.
ghost use Rattle.pure_goal_laws.specs.Examples.Definitions.{PrefixExample, LiftedExample, StrippedExample};
ghost use Rattle.pure_goal_laws.specs.Examples.Proofs.{AssumptionProof, RuleProof, EliminationProof, DestructionProof, ConversionProof};
ghost use Rattle.pure_goal_laws.specs.Examples.Pairs.{DroppedExample, SmashedExample, FlexibleProof, MovedExample};

/// A prefix with parameters and hypotheses, a rule lifted over it, and a rule stripped of its front.
pub fn prefix_example()
    ensures prefix { PrefixExample }
    ensures lifted { LiftedExample }
    ensures stripped { StrippedExample }
{}

/// A whole proof by assumption.
pub fn assumption_proof()
    ensures { AssumptionProof }
{}

/// A proof in which a rule is stripped, lifted over a parameter and unified, and leaves its premise.
pub fn rule_proof()
    ensures { RuleProof }
{}

/// A proof by elimination of a hypothesis that stands before a parameter.
pub fn elimination_proof()
    ensures { EliminationProof }
{}

/// A proof by destruction, with a subgoal deferred and preferred.
pub fn destruction_proof()
    ensures { DestructionProof }
{}

/// A proof by conversion of a subgoal.
pub fn conversion_proof()
    ensures { ConversionProof }
{}

/// Pairs that are removed: a trivial one is dropped, and flexible ones are smashed, one of them left open by a step.
pub fn pair_example()
    ensures dropped { DroppedExample }
    ensures smashed { SmashedExample }
    ensures left_open { FlexibleProof }
{}

/// A step from a goal with a pair and two subgoals, by a fact that rests on a promise, which moves the pair and the other subgoal.
pub fn moved_example()
    ensures { MovedExample }
{}

//! What goals mean: laws, each carried by the contract of a function that does nothing.
ghost use Rattle.pure_goal_laws.specs.Laws.Prefix.{ImplicationBehind, ChainBehind, HypothesisBehind, FurtherHypothesisBehind, EqualBehind};
ghost use Rattle.pure_goal_laws.specs.Laws.Lifting.{StrippedRule, LiftedRule};
ghost use Rattle.pure_goal_laws.specs.Laws.Steps.{StepIsDerivable, ByRule, ByAssumption, ByElimination, ByDestruction, ByEquation};
ghost use Rattle.pure_goal_laws.specs.Laws.Facts.{AssumptionStep, RuleStep, EliminationStep, DestructionStep, ConversionStep};
ghost use Rattle.pure_goal_laws.specs.Laws.States.{SubgoalsArePropositions, PairsAreCertified, StartIsDerivable, EndIsDerivable, ExchangedIsDerivable, ReorderedIsDerivable, PreferredIsDerivable, DeferredIsDerivable, DroppedIsDerivable, SmashedIsDerivable};

/// What is proved behind a prefix: implications and chains of them, hypotheses, and what is equal there.
pub fn proved_behind_prefix()
    ensures implication { ImplicationBehind }
    ensures chain { ChainBehind }
    ensures hypothesis { HypothesisBehind }
    ensures further { FurtherHypothesisBehind }
    ensures equal { EqualBehind }
{}

/// A rule may be stripped of its front, and lifted over the prefix of a subgoal.
pub fn rule_is_lifted()
    ensures stripped { StrippedRule }
    ensures lifted { LiftedRule }
{}

/// A step from a derivable goal, with a justification, leads to a derivable goal.
pub fn step_is_derivable()
    ensures { StepIsDerivable }
{}

/// What justifies a step: a rule, by itself, by elimination or by destruction; an assumption; an equation.
pub fn subgoal_is_justified()
    ensures rule { ByRule }
    ensures assumption { ByAssumption }
    ensures elimination { ByElimination }
    ensures destruction { ByDestruction }
    ensures equation { ByEquation }
{}

/// Steps by assumption, and by a derivable fact: a rule, by itself, by elimination or by destruction; or an equation.
pub fn steps_by_facts()
    ensures assumption { AssumptionStep }
    ensures rule { RuleStep }
    ensures elimination { EliminationStep }
    ensures destruction { DestructionStep }
    ensures conversion { ConversionStep }
{}

/// What stands in a derivable goal: subgoals are propositions, and pairs have certified sides.
pub fn goal_is_certified()
    ensures subgoals { SubgoalsArePropositions }
    ensures pairs { PairsAreCertified }
{}

/// The first goal for a proposition, and the proposition from a goal without subgoals.
pub fn goal_begins_and_ends()
    ensures start { StartIsDerivable }
    ensures end { EndIsDerivable }
{}

/// Subgoals may be exchanged for equated ones, and stand in another order.
pub fn subgoals_are_exchanged()
    ensures exchanged { ExchangedIsDerivable }
    ensures reordered { ReorderedIsDerivable }
    ensures preferred { PreferredIsDerivable }
    ensures deferred { DeferredIsDerivable }
{}

/// Trivial pairs may be dropped, and all pairs smashed.
pub fn pairs_are_removed()
    ensures dropped { DroppedIsDerivable }
    ensures smashed { SmashedIsDerivable }
{}

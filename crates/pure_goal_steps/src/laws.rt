//! Laws of goal states and of steps on them: each is the contract of a function that does nothing.
ghost use Rattle.pure_goal_steps.specs.OneOutcome.{ReadOnce, OneRule, BeginsOnce, RuleOnce, EliminationOnce, DestructionOnce, AssumptionOnce, PreferOnce, DeferOnce, ConversionOnce};
ghost use Rattle.pure_goal_steps.specs.Derivability.{BecomesSound, BeginsSound, PreferredIsSound, DeferredIsSound, ConvertedIsSound};

/// A subgoal is read in one way, and a fact is one rule on a goal.
pub fn read_in_one_way()
    ensures subgoal { ReadOnce }
    ensures rule { OneRule }
{}

/// Each step has one outcome at most.
pub fn one_outcome()
    ensures begins { BeginsOnce }
    ensures rule { RuleOnce }
    ensures elimination { EliminationOnce }
    ensures destruction { DestructionOnce }
    ensures assumption { AssumptionOnce }
    ensures prefer { PreferOnce }
    ensures defer { DeferOnce }
    ensures conversion { ConversionOnce }
{}

/// Steps without unification lead from derivable goals to derivable goals, and keep what steps ask of goals.
pub fn steps_are_sound()
    ensures becomes { BecomesSound }
    ensures begins { BeginsSound }
    ensures preferred { PreferredIsSound }
    ensures deferred { DeferredIsSound }
    ensures converted { ConvertedIsSound }
{}

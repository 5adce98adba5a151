//! Laws of steps by unification: each is the contract of a function that does nothing.
ghost use Rattle.pure_goal_step_laws.specs.Laws.{RuleIsSound, EliminationIsSound, DestructionIsSound, AssumptionIsSound};

/// Steps by unification lead from derivable goals to derivable goals, and keep what steps ask of goals.
pub fn unifying_steps_are_sound()
    ensures rule { RuleIsSound }
    ensures elimination { EliminationIsSound }
    ensures destruction { DestructionIsSound }
    ensures assumption { AssumptionIsSound }
{}

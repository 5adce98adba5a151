//! Why a step of a proof is refused.
use std::alloc::AllocError;

/// Why a step of a proof is refused: its fact isn't known; there is no subgoal, or not the one that is asked for; the rule has
/// no premise; the fact isn't a definition, or nothing is unfolded; there is no unifier, or the search for one was given up;
/// too many beta steps, or a term beyond the limits; no hypothesis serves; subgoals are left; or memory ran out.
#[derive(Clone, Copy, Debug, PartialEq, Eq)]
pub enum StepFault {
    UnknownFact,
    NoSubgoal,
    NoPremise,
    NotDefinition,
    NothingToUnfold,
    NoUnifier,
    SearchBound,
    Steps,
    Big,
    NoHypothesis,
    SubgoalsLeft,
    Memory,
}

impl From<AllocError> for StepFault {
    ghost use Rattle.std.specs.Prelude.{◌≡◌};
    ghost use Rattle.pure_goal_steps.specs.declared.fault.StepFault.TheVariants.{Memory};

    ghost from_gives = { λ _ fault. fault ≡ Memory };

    fn from(_: AllocError) -> StepFault {
        StepFault::Memory
    }
}

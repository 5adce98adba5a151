//! The texts of faults of proofs.
ghost use Rattle.std.specs.Prelude.{◌≡◌};
ghost use Rattle.pure_promise.specs.RowText.{fault_text};

use pure_goal_steps::StepFault;

/// The text of the fault.
#[tactic(auto, unfolding(crate::specs::RowText::fault_text))]
pub fn fault_words(fault: StepFault) -> &'static [u8]
    ensures { result.now ≡ fault_text fault }
{
    match fault {
        StepFault::UnknownFact => b"unknown fact",
        StepFault::NoSubgoal => b"no subgoal",
        StepFault::NoPremise => b"no premise",
        StepFault::NotDefinition => b"not a definition",
        StepFault::NothingToUnfold => b"nothing to unfold",
        StepFault::NoUnifier => b"no unifier",
        StepFault::SearchBound => b"search bound",
        StepFault::Steps => b"too many beta steps",
        StepFault::Big => b"too large",
        StepFault::NoHypothesis => b"no hypothesis",
        StepFault::SubgoalsLeft => b"subgoals left",
        StepFault::Memory => b"",
    }
}

//! Faults of steps by their names.
use pure_goal_steps::StepFault;

/// The faults and their names.
const FAULTS: [(&[u8], StepFault); 11] = [
    (b"UnknownFact", StepFault::UnknownFact),
    (b"NoSubgoal", StepFault::NoSubgoal),
    (b"NoPremise", StepFault::NoPremise),
    (b"NotDefinition", StepFault::NotDefinition),
    (b"NothingToUnfold", StepFault::NothingToUnfold),
    (b"NoUnifier", StepFault::NoUnifier),
    (b"SearchBound", StepFault::SearchBound),
    (b"Steps", StepFault::Steps),
    (b"Big", StepFault::Big),
    (b"NoHypothesis", StepFault::NoHypothesis),
    (b"SubgoalsLeft", StepFault::SubgoalsLeft),
];

/// The fault of this name.
pub(crate) fn fault(name: &[u8]) -> Option<StepFault> {
    for (own, fault) in &FAULTS {
        if *own == name {
            return Some(*fault);
        }
    }
    None
}

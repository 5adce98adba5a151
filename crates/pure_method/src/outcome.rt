//! What comes of a proof.
use pure_declare::theory::Cthm;
use pure_resolve::goal_steps::StepFault;

/// What comes of a lemma's proof: the lemma's theorem, in the theory in which it was stated; or the number of the step that fails, and why it does.
#[derive(Drop)]
pub enum Outcome {
    Proved { result: Cthm },
    Fault { step: u32, fault: StepFault },
}

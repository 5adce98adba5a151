//! Whole proofs: what comes of a statement and the steps of its proof.
#![tactic(auto)]

mod close;
mod duty;
pub mod examples;
mod fact;
mod fault;
pub mod laws;
mod outcome;
mod proving;
mod run;
mod step;
mod unfold;

pub use duty::step_at;
pub use outcome::Outcome;
pub use proving::{Place, Proving, prove, start};
pub use pure_declare as declare;
pub use pure_declare::theory;
pub use pure_resolve::goal_steps::StepFault;
pub use run::Run;

//! Goals, and the steps of proofs on them.
#![tactic(auto)]

mod begin;
mod close;
mod convert;
mod end;
mod follow;
mod hypotheses;
pub mod laws;
mod limits;
mod open;
mod reorder;
mod resolve;
mod settle;
mod shared;
mod state;
mod stay;
mod trial;

pub use begin::start;
pub use pure_goal_step_laws as goal_step_laws;
pub use pure_goal_step_laws::unify_answers;
pub use pure_goal_steps as goal_steps;
pub use pure_goal_steps::{StepFault, pairs};
pub use state::Goal;

//! The workers of a board: one for each seat, in threads of their own.
#![tactic(auto)]

mod cancellations;
mod executed;
mod proof_runs;
mod rest;
mod theory_runs;
mod workers;

pub use executed::execute;
pub use workers::run;

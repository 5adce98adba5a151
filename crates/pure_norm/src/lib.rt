//! Normal forms of terms.
#![tactic(auto)]

mod beta;
mod cells;
mod contract;
mod fault;
mod held;
mod instance;
pub mod laws;
mod measure;
mod occurrences;
mod pieces;
mod rows;
mod scope;
mod walk;

pub use beta::{MAX_STEPS, beta_norm};
pub use fault::NormFault;
pub use instance::{instance_long, least_index};
pub use pure_eta::{eta_norm, long_form};

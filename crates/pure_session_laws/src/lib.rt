//! What a session gives with its loaded theories, and whose each declaration of a session's contents is.
#![tactic(auto)]

pub mod laws;
pub mod owners;

pub use pure_method as method;
pub use pure_method::{declare, theory};

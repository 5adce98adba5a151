//! Eta reduction: eta-normal forms, and long forms.
#![tactic(auto)]

mod eta;
mod expanded;
mod fits;
mod front;
pub mod laws;
mod long;
mod own;

pub use eta::eta_norm;
pub use long::{lengthened, long_form, long_under};
pub use own::is_own_long_form;

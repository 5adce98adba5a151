//! Conversions: theorems that say what a term equals.
#![tactic(auto)]

mod constants;
mod fault;
mod front;
mod rule;
mod simple;
mod unfolding;

pub use constants::bottom;
pub use fault::ConvFault;
pub use simple::{abs_conv, all_conv, comb_conv, then_conv};
pub use unfolding::unfold;

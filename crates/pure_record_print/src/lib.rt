//! Recorded derivations as they are printed.
#![tactic(auto)]

mod item;
pub mod laws;
mod line;
mod name;
mod print;
mod term;
mod typ;

pub use print::print_record;

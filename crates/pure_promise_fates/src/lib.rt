//! Fates: what a lemma reaches through the promises of proofs, and what its row says.
#![tactic(auto)]

mod entry;
mod fate;
mod find;
pub mod laws;
mod reach;
mod rows;

pub use entry::Reported;
pub use fate::{Fate, fate_of, is_proved};
pub use find::place_of;
pub use reach::{Reach, reaches};

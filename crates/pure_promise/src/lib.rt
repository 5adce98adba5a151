//! Promises that theorems fulfil, lemmas that are joined, and the rows of lemmas.
#![tactic(auto)]

mod entry;
mod fault_text;
mod joining;
pub mod laws;
mod lemma_rows;
mod lemmas;
mod names_text;
mod promise;
mod row;

pub use entry::{Entry, Own};
pub use fault_text::fault_words;
pub use joining::join;
pub use lemma_rows::rows;
pub use lemmas::Lemmas;
pub use promise::{AcceptFault, Promise};

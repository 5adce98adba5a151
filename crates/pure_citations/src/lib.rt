//! What lemmas cite: the axioms and definitions on which a proof rests.
#![tactic(auto)]

mod cited;
mod drawn;
mod edges;
mod facts;
mod faults;
mod heads;
mod index;
pub mod laws;
mod listed;
mod nodes;
mod reach;
mod rows;

pub use cited::cited_axioms;
pub use edges::drawing;
pub use faults::reached_faults;
pub use listed::{Listing, said_of};

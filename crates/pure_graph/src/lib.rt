//! The theories of a directory: which of its files are loaded, and why the others are refused.
#![tactic(auto)]

mod drafts;
mod fault;
mod files;
mod header;
pub mod laws;
mod listing;
mod outcome;
mod source;
mod sum;

pub use fault::LoadFault;
pub use files::read_files;
pub use outcome::{Outcome, Reason, TheoryFile};

//! The command line's words, read as a job.
#![tactic(auto)]

mod cancel;
mod command;
mod given;
mod job;
pub mod laws;
mod line;
mod name;
mod number;
mod read;
mod table;

pub use job::{CancelWord, Cancels, Job};
pub use read::{WordsFault, read_words};

//! Recorded derivations, replayed: a record is checked line by line, over the conclusions of the lines alone.
#![tactic(auto)]

mod conclusion;
mod equality;
mod fault;
mod implication;
mod instance;
mod items;
mod known;
mod lines;
mod quantification;
mod replayed;
mod said;
mod schematic;
mod tables;

pub use fault::ReplayFault;
pub use pure_record::{Item, Node, Record};
pub use replayed::replay;
pub use said::{Said, no_line, said_of};

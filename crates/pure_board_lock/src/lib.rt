//! A desk on which one object lies that any number of seats change, one at a time: all changes have one history.
#![tactic(auto)]

mod closing;
mod course;
mod desk;
mod plays;
mod rule;
mod steps;

pub use closing::Closed;
pub use course::Course;
pub use desk::{Desk, Seat};
pub use rule::Sight;

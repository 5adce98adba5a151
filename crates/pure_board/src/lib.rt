//! A core that any number of workers share by seats: all their events have one legal order.
#![tactic(auto)]

mod board;
mod closing;
mod course;
mod entering;
mod opening;
mod taking;
mod tokens;

pub use board::{Board, Seat};
pub use closing::Closed;
pub use opening::Opened;

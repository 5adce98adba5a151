//! Numbered attempts, raced on several threads: the least number that wins.
#![tactic(auto)]

mod attempts;
mod lanes;
pub mod laws;
mod races;
#[cfg(test)]
mod scripted;
#[cfg(test)]
mod tests;
mod wins;

pub use attempts::Attempts;
pub use races::race;

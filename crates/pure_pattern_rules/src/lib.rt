//! Unification of patterns: how a pair is treated.
#![tactic(auto)]

mod applied;
mod both;
mod flexible;
mod images;
mod mixed;
mod occurs;
mod rigid;
mod sets;
mod treatment;

pub use treatment::{Treatment, treated};

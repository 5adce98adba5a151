//! The search for a unifier of terms: nodes are visited in preorder, until one stops it or is a success.
#![tactic(auto)]

mod branch;
mod call;
mod child;
mod choice;
mod clash;
mod comes;
mod fault;
mod images;
mod later;
mod own;
mod resolve;
mod search;
mod sharing;
mod unifier;

pub use call::{unify, unify_while};
pub use fault::UnifyFault;
pub use unifier::Unifier;

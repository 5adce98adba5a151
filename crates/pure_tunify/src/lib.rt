//! Order-sorted unification of types: its steps, their laws, and what sorts ask of types.
#![tactic(auto)]

mod agreement;
mod asking;
mod asks;
mod classes;
mod demands;
mod doubled;
mod equation;
mod fault;
mod free;
mod graph;
mod index;
mod large;
pub mod laws;
mod measure;
mod meeting;
mod narrow;
mod occurs;
mod pair;
mod pursue;
mod ranks;
mod reached;
mod resolve;
mod settings;
mod solve;
mod sorted;
mod stored;
mod turn;
mod unifiable;
mod unifier;

pub use asks::{Asked, asked_of, asked_of_arguments};
pub use doubled::{applied_twice, twice};
pub use equation::{Equation, pairs_of};
pub use fault::TypFault;
pub use index::index_above_each as index_above;
pub use pair::TypPair;
pub use resolve::{Resolved, resolve as resolved_in_room, written_out};
pub use settings::Settings;
pub use unifier::{settle, settle_given, unify, unify_from};

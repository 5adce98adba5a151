//! Completed tables of classes and arities: queries by look-up, which answer the order of classes by its paths.
#![tactic(auto)]

mod classes;
mod conflicts;
mod judge;
mod kept;
mod names;
mod reduced;
mod rows;
mod slots;
mod sorts;
mod tables;
mod uncovered;
mod union;
mod unknown;

pub use classes::{ClassEntry, ClassTable};
pub use tables::{ArityEntry, Tables};

//! Elaboration: what written terms and types say, under a most general typing, or their first fault.
#![tactic(auto)]

mod calls;
mod classes;
mod draft;
mod fault;
mod faults;
mod language;
pub mod laws;
mod meaning;
mod names;
mod nodes;
mod numbered;
mod numbers;
mod scope;
mod settled;
mod sorts;
mod written;

pub use calls::{elaborate, elaborate_at, elaborate_typ};
pub use classes::WrittenClass;
pub use draft::{Constraints, Drafted};
pub use fault::{ElabFault, FaultAt, NameFault};
pub use language::Language;
pub use meaning::Meaning;
pub use numbers::{Numbering, Numbers, Variable};
pub use sorts::VariableSort;

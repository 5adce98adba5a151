//! Which types and terms are certified over given declarations, and the first fault of one that isn't; what a declared type
//! matches, and what the body of a definition may not have.
#![tactic(auto)]

mod body;
mod constant;
mod fault;
pub mod laws;
mod matching;
mod tables;
mod term;
mod typ;

pub use body::{has_extra_typ, has_variable};
pub use constant::fault_of_const;
pub use fault::CertFault;
pub use matching::match_typ;
pub use tables::Tables;
pub use term::{certify, fault_of_term};
pub use typ::fault_of_typ;

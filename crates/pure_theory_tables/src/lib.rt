//! Declarations in tables that stages of a theory share.
#![tactic(auto)]

mod agreement;
mod decl;
mod declarations;
mod entry;
mod fact;
mod growing;
mod index;
mod labels;
pub mod laws;
mod members;
mod numbers;
mod pointers;
mod shelves;

pub use decl::Decl;
pub use declarations::Declarations;
pub use entry::Entry;
pub use fact::Statement;
pub use pointers::shared;

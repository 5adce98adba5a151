//! Where the parts of a theory stand in its source.
#![tactic(auto)]

pub mod laws;
mod mark;
mod parts;
mod search;
mod steps;

pub use parts::{CommandParts, Import, Part, Places, part_at};
pub use search::{find_places, found_among};

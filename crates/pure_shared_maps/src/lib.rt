//! Lists, and finite maps in sorted runs or over a front, behind shared pointers, so that those that grow from one share its parts.
#![tactic(auto)]

mod entries;
mod list;
mod map;
mod powers;
mod runs;
mod shelf;

pub use entries::Entry;
pub use list::GrownList;
pub use map::GrownMap;
pub use powers::powers_law;
pub use shelf::Shelf;

//! Maps on theorems: instances by finite maps, fixed variables made schematic, indexes raised.
#![tactic(auto)]

mod answer;
mod fault;
mod image;
mod instance;
mod named;
mod ordered;
mod renaming;
mod schematic;

pub use fault::InstFault;
pub use image::{fits, instantiated};
pub use instance::instantiate;
pub use ordered::Ordered;
pub use schematic::{generalise, incr_indexes};

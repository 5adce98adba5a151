//! Sessions of lemmas whose outcomes are known, and cores of such sessions.
#![tactic(auto)]

mod cores;
mod session;
mod shape;

pub use cores::{drained, opened, stopped};
pub use session::{Lemmas, Proof, Session};
pub use shape::{copied, is_shape, shape_of};

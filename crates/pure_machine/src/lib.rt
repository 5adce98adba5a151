//! The state machine of parallel checking: theories, promises, groups of promises and their history.
#![tactic(auto)]

mod answers;
mod buckets;
mod grouped;
mod groups;
mod log;
mod machine;
mod parts;
mod policy;
mod promises;
mod schedule;
mod theories;

pub use answers::{Delivered, Polled, Task};
pub use machine::Machine;
pub use parts::{Promise, Standing};
pub use policy::{Cancel, Group, Node, Policy};

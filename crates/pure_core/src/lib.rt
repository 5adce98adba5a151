//! The core of parallel checking: a work, whose theories fork goals and whose proofs settle them, on its state machine.
#![tactic(auto)]

pub mod laws;
mod runs;
mod work;

pub use pure_machine::{
    Cancel, Delivered, Group, Machine, Node, Policy, Polled, Promise, Standing, Task,
};
pub use runs::{Core, drain, open};
pub use work::{Turn, Work};

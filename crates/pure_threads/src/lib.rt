//! Threads of a chosen stack.
#![tactic(auto)]

mod beside;
mod each;
mod room;

pub use beside::run_beside;
pub use each::{Becomes, work_on_each};
pub use room::threads_in_room;

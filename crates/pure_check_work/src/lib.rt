//! The checker's session as a work of the core, and what its table is formed from: what theories left, and the entries of lemmas.
#![tactic(auto)]

mod attempt;
mod board;
mod checking;
mod entries;
pub mod laws;
mod said;
mod shape;
mod work;

pub use attempt::Attempt;
pub use board::checked;
pub use checking::Checking;
pub use pure_table as table;
pub use pure_table::{declare, method, promise, session_laws, session_meaning, theory, theory_run};
pub use said::{Said, said_by};

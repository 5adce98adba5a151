//! The table of a session: the rows that are printed, and what holds of them.
#![tactic(auto)]

mod filling;
pub mod laws;
mod printing;
mod refused;
mod taking;

pub use printing::{put_table, table};
pub use pure_promise as promise;
pub use pure_theory_run as theory_run;
pub use pure_theory_run::{declare, method, session_laws, session_meaning, theory};
pub use taking::TakesRows;

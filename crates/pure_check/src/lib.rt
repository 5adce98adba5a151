//! The top call: what the words ask for is done with the library's files or with generated ones, and written to the sink.
#![tactic(auto)]

mod answer;
mod axioms;
mod call;
mod checked;
mod ended;
mod formed;
mod found;
mod generated;
mod graphed;
pub mod laws;
mod placed;
mod replayed;
mod shown;
mod status;
mod tables;
mod tried;
mod written;

pub use call::pure;
pub use ended::Ended;
pub use pure_check_work::{declare, method, theory_run};
pub use status::Status;

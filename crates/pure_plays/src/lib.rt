//! Plays on boards: calls at their seats in threads, and runs of the pool, with gates that see whether proofs run at once.
#![tactic(auto)]

mod acts;
mod boards;
mod gates;
mod hands;
mod plays;
mod searches;

pub use acts::{Act, Acts, Command, Commands};
pub use boards::{run_acts, run_closed, run_searches, run_session};
pub use gates::Meeting;
pub use hands::{Answer, Call, Hand, Reply, make};
pub use plays::{Played, Turn, play_closed};
pub use searches::{Ending, Searches};

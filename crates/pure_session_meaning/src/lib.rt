//! What becomes of the theories of a session, and the lemmas that are bound in it.
#![tactic(auto)]

pub mod laws;

pub use pure_session_laws as session_laws;
pub use pure_session_laws::{declare, method, theory};

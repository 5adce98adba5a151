//! What the words ask to be cancelled: the policy of a session, and which of its lemmas may be cancelled.
#![tactic(auto)]

pub mod laws;
mod policy;

pub use policy::policy_of;

//! Which promises may be cancelled: conditions on policies, and that orderly runs meet them.
#![tactic(auto)]

pub mod examples;
pub mod laws;

//! The algebra of classes and arities, coregular in every state.
#![tactic(auto)]

mod fault;
pub mod laws;
mod order;
mod places;
mod walk;

pub use fault::OrderFault;
pub use order::Order;
pub use pure_order_tables as order_tables;

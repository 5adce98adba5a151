//! Terms and types as they are written, from their tokens.
#![tactic(auto)]

mod binder;
mod frame;
pub mod laws;
mod lexeme;
mod raw;
mod read;
mod sort;
mod state;
mod term;
mod turn;
mod typ;

pub use raw::{Raw, RawClass, RawNode, RawTyp, RawTypNode};
pub use read::{MAX_TOKENS, RawFault, read_raw, read_raw_typ};

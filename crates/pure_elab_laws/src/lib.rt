//! What a typing of a written term is, apart from the constraints on its draft.
#![tactic(auto)]

pub mod typings;

//! A conversion of one's own over the kernel: rewriting by one equation, wherever an instance of its left side stands.
#![tactic(auto)]

mod matching;
mod rewriting;

pub use rewriting::rewrite;

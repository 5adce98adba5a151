//! What is said of a lemma.
use crate::method::Method;

/// There is no lemma of this name; or the first method in order that proves it, or none where none does.
#[derive(Drop)]
pub enum Answer {
    NoLemma,
    Tried { first: Option<Method> },
}

//! A gate before each proof.
use std::sync::Wait;
use std::thread::Threads;

/// What is called round each forked proof, with the number of its promise. Either call may wait.
pub trait Gate: Sync {
    /// Called before the proof is begun.
    fn enter<R: Threads + Wait>(&self, rt: &R, number: u32);

    /// Called after the proof's result was delivered.
    fn left<R: Threads + Wait>(&self, rt: &R, number: u32);
}

/// A gate that does nothing.
#[derive(Clone, Copy, Debug)]
pub struct OpenGate;

impl OpenGate {
    /// A gate that does nothing. There is one alone, so that no clause could say more of it.
    pub fn make() -> OpenGate {
        OpenGate
    }
}

impl Gate for OpenGate {
    fn enter<R: Threads + Wait>(&self, _rt: &R, _number: u32) {}

    fn left<R: Threads + Wait>(&self, _rt: &R, _number: u32) {}
}

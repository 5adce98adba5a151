//! What a machine answers.
use std::sync::Arc;

/// What is there to do: a theory, with the values that closed its parents, or a proof; or nothing now, nothing any more, or the work was stopped.
#[derive(Drop)]
pub enum Task<G, C> {
    Theory { index: u32, parents: Vec<Arc<C>> },
    Proof { number: u32, goal: Arc<G> },
    Idle,
    Finished,
    Stopped,
}

/// Whether an outcome was kept, or the promise had been cancelled.
#[derive(Clone, Copy)]
pub enum Delivered {
    Kept,
    Cancelled,
}

/// Whether a proof goes on.
#[derive(Clone, Copy)]
pub enum Polled {
    Go,
    Cancelled,
    Stopped,
}

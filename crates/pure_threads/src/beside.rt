//! Two things done side by side.
use core::thread::Stack;
use std::marker::Send;
use std::sync::Wait;
use std::thread;
use std::thread::{Promise, Threads};

/// Does both side by side: the first in a thread of this stack, in bytes, where one can be made, else in the caller's before the
/// other. What the first gives keeps the promise. It waits for that thread.
pub fn run_beside<
    R: Threads + Wait + Sync,
    P: Promise<A> + Drop,
    A: Send + Drop,
    F: FnOnce() -> A + Send + Drop,
    G: FnOnce() -> B + Drop,
    B: Drop,
>(rt: &R, stack: usize, promise: P, first: F, other: G) -> (A, B)
    requires first { F.pre first }
    requires keeps { (x : A) → F.post first x → P.kept_by promise x }
    requires other { G.pre other }
    ensures first { P.kept_by promise result.0 }
    ensures other { G.post other result.1 }
{
    thread::scope(
        thread::scope_env(),
        rt,
        |scope|
            requires { F.pre first × ((x : A) → F.post first x → P.kept_by promise x) × G.pre other }
            ensures { P.kept_by promise result.0 × G.post other result.1 }
        {
            match Stack::new()
                .stack_size(stack)
                .spawn_scoped_with(scope, promise, first)
            {
                Ok(handle) => {
                    let beside = other();
                    (handle.join(rt), beside)
                }
                Err(refused) => {
                    let answer = (refused.value)();
                    (answer, other())
                }
            }
        },
    )
}

/// Does both: side by side where a thread is to be made, else one after the other.
pub(crate) fn run_both<
    R: Threads + Wait + Sync,
    P: Promise<A> + Drop,
    A: Send + Drop,
    F: FnOnce() -> A + Send + Drop,
    G: FnOnce() -> B + Drop,
    B: Drop,
>(rt: &R, is_beside: bool, stack: usize, promise: P, first: F, other: G) -> (A, B)
    requires first { F.pre first }
    requires keeps { (x : A) → F.post first x → P.kept_by promise x }
    requires other { G.pre other }
    ensures first { P.kept_by promise result.0 }
    ensures other { G.post other result.1 }
{
    if is_beside {
        run_beside(rt, stack, promise, first, other)
    } else {
        let answer = first();
        (answer, other())
    }
}

//! Searches that are broken off.
use crate::fields::{number, policy_of, session_of};
use crate::pools::are_so;
use pure_core::Policy;
use pure_plays::{Ending, Searches, run_searches};
use pure_rows::{Fault, Row, named};
use std::alloc::Global;
use std::mem;
use std::sync::Wait;
use std::thread::Threads;

/// The words for what comes of the proof that doesn't search.
const ENDINGS: [(&[u8], Ending); 3] = [
    (b"proved", Ending::Proved),
    (b"fault", Ending::Fault),
    (b"no-memory", Ending::NoMemory),
];

/// How often the search is begun and broken off, and what is wanted of the core at the end.
#[derive(Clone, Copy)]
struct Wanted<'r> {
    begun: u32,
    broken: u32,
    words: &'r [u8],
}

/// Whether the searches go so under the policy.
fn go<R: Threads + Wait + Sync>(
    rt: &R,
    alloc: Global,
    searches: &Searches,
    policy: Policy,
    wanted: Wanted,
) -> Result<bool, Fault> {
    let closed = run_searches(rt, alloc, searches, policy, 2)?;
    let holds = are_so(alloc, searches.session(), closed.core(), wanted.words);
    mem::forget(closed);
    Ok(
        holds?
            && searches.begun() == u64::from(wanted.begun)
            && searches.broken() == u64::from(wanted.broken),
    )
}

/// Whether the row `breaks POLICY ENDING BEGUN BROKEN WANTED` holds.
pub(crate) fn breaks<R: Threads + Wait + Sync>(
    rt: &R,
    alloc: Global,
    row: &Row,
) -> Result<bool, Fault> {
    let [_, policy, ending, begun, broken, words] = row.fields_from(0) else {
        return Err(Fault::Unreadable);
    };
    let wanted = Wanted {
        begun: number(begun)?,
        broken: number(broken)?,
        words,
    };
    let ending = named(&ENDINGS, ending).ok_or(Fault::Unreadable)?;
    let policy = policy_of(alloc, policy)?;
    let searches = Searches::make(session_of(alloc, b":o :x")?, ending);
    let holds = go(rt, alloc, &searches, policy, wanted);
    mem::forget(searches);
    holds
}

//! Sessions drained under policies, and calls of a core one by one.
use crate::fields::{is_blank, policy_of, session_of};
use crate::letters::stand;
use pure_core::{Core, Policy, Task};
use pure_rows::{Fault, Row, named};
use pure_trials::{Session, drained, opened, stopped};
use std::alloc::{AllocError, Global};
use std::mem;

/// Whether the session, drained under the policy, leaves its promises so.
fn leaves(
    alloc: Global,
    session: &Session,
    policy: Policy,
    wanted: &[u8],
) -> Result<bool, AllocError> {
    let core = drained(alloc, session, policy)?;
    let holds = stand(alloc, &core, wanted);
    mem::forget(core);
    holds
}

/// Whether the session, drained under the policy of these words, leaves its promises so.
fn leaves_under(
    alloc: Global,
    session: &Session,
    policy: &[u8],
    wanted: &[u8],
) -> Result<bool, Fault> {
    let policy = policy_of(alloc, policy)?;
    Ok(leaves(alloc, session, policy, wanted)?)
}

/// Whether the row `drains POLICY THEORIES LETTERS` holds.
pub(crate) fn drains(alloc: Global, row: &Row) -> Result<bool, Fault> {
    let [_, policy, theories, wanted] = row.fields_from(0) else {
        return Err(Fault::Unreadable);
    };
    let session = session_of(alloc, theories)?;
    let holds = leaves_under(alloc, &session, policy, wanted);
    mem::forget(session);
    holds
}

/// What a take gives.
#[derive(Clone, Copy, PartialEq, Eq)]
enum Given {
    Theory,
    Proof,
    Idle,
    Finished,
    Stopped,
}

/// What the next take gives.
fn taken(core: &mut Core<Session>) -> Result<Given, AllocError> {
    let given = match core.take()? {
        Task::Theory { .. } => Given::Theory,
        Task::Proof { .. } => Given::Proof,
        Task::Idle => Given::Idle,
        Task::Finished => Given::Finished,
        Task::Stopped => Given::Stopped,
    };
    Ok(given)
}

/// Closes the theory that is taken next; whether one was.
fn close_taken(core: &mut Core<Session>) -> Result<bool, AllocError> {
    match core.take()? {
        Task::Theory { index, .. } => {
            core.close_theory(index, 7)?;
            Ok(true)
        }
        _ => Ok(false),
    }
}

/// A call of a core, and what it gives.
#[derive(Clone, Copy)]
enum Call {
    Take(Given),
    Close,
    IsStopped(bool),
    IsClosed(bool),
}

/// The words for calls.
const CALLS: [(&[u8], Call); 10] = [
    (b"theory", Call::Take(Given::Theory)),
    (b"proof", Call::Take(Given::Proof)),
    (b"idle", Call::Take(Given::Idle)),
    (b"finished", Call::Take(Given::Finished)),
    (b"stopped", Call::Take(Given::Stopped)),
    (b"close", Call::Close),
    (b"is_stopped", Call::IsStopped(true)),
    (b"is_going", Call::IsStopped(false)),
    (b"is_closed", Call::IsClosed(true)),
    (b"is_open", Call::IsClosed(false)),
];

/// Makes the call; whether it gives what it says.
fn gives(core: &mut Core<Session>, call: Call) -> Result<bool, AllocError> {
    match call {
        Call::Take(given) => Ok(taken(core)? == given),
        Call::Close => close_taken(core),
        Call::IsStopped(is_so) => Ok(core.stopped() == is_so),
        Call::IsClosed(is_so) => Ok(core.closed(1).is_some() == is_so),
    }
}

/// Whether all calls, with blanks between them, give what they say.
fn all_give(core: &mut Core<Session>, calls: &[u8]) -> Result<bool, Fault> {
    for word in calls.split(is_blank) {
        let call = named(&CALLS, word).ok_or(Fault::Unreadable)?;
        if !gives(core, call)? {
            return Ok(false);
        }
    }
    Ok(true)
}

/// A state in which a session's core is.
#[derive(Clone, Copy)]
enum State {
    Opened,
    Stopped,
    Drained,
}

/// The words for states.
const STATES: [(&[u8], State); 3] = [
    (b"opened", State::Opened),
    (b"stopped", State::Stopped),
    (b"drained", State::Drained),
];

/// The core of the session in the state.
fn core_at(alloc: Global, state: State, session: &Session) -> Result<Core<Session>, AllocError> {
    let policy = Policy {
        fail_fast: false,
        cancels: Vec::new(alloc),
    };
    match state {
        State::Opened => opened(alloc, session, policy),
        State::Stopped => stopped(alloc, session, policy),
        State::Drained => drained(alloc, session, policy),
    }
}

/// Whether the session's core in the state answers all calls so.
fn core_gives(alloc: Global, state: State, session: &Session, calls: &[u8]) -> Result<bool, Fault> {
    let mut core = core_at(alloc, state, session)?;
    let holds = all_give(&mut core, calls);
    mem::forget(core);
    holds
}

/// Whether the row `core STATE THEORIES CALLS` holds.
pub(crate) fn core(alloc: Global, row: &Row) -> Result<bool, Fault> {
    let [_, state, theories, calls] = row.fields_from(0) else {
        return Err(Fault::Unreadable);
    };
    let state = named(&STATES, state).ok_or(Fault::Unreadable)?;
    let session = session_of(alloc, theories)?;
    let holds = core_gives(alloc, state, &session, calls);
    mem::forget(session);
    holds
}

//! Whole sessions, run by the workers of a pool.
use crate::fields::{cut, is_blank, number, policy_of, positive};
use crate::letters::{are_all_settled, count_of};
use pure_core::{Core, Node, Policy};
use pure_io::OpenGate;
use pure_plays::{Meeting, run_session};
use pure_rows::{Fault, Row, named};
use pure_trials::Session;
use std::alloc::{AllocError, Global};
use std::mem;
use std::sync::Wait;
use std::thread::Threads;

/// Which theories a theory imports: none, all before it, or the one with half its number.
#[derive(Clone, Copy)]
enum Imports {
    Nothing,
    All,
    Half,
}

/// The words for imports.
const IMPORTS: [(&[u8], Imports); 3] = [
    (b"nothing", Imports::Nothing),
    (b"all", Imports::All),
    (b"half", Imports::Half),
];

/// The numbers of the parents of a theory.
fn parents(alloc: Global, imports: Imports, index: u32) -> Result<Vec<u32>, AllocError> {
    let mut numbers = Vec::new(alloc);
    match imports {
        Imports::Nothing => {}
        Imports::All => {
            for number in 1..index {
                numbers.push(number)?;
            }
        }
        Imports::Half => {
            if index > 1 {
                numbers.push(index / 2)?;
            }
        }
    }
    Ok(numbers)
}

/// Whether the proof of a theory's lemma fails.
fn fails(index: u32, lemma: u32) -> bool {
    index.wrapping_add(lemma) % 5 == 0
}

/// For each lemma of a theory whether its proof fails.
fn lemmas_of(alloc: Global, index: u32, count: u32) -> Result<Vec<bool>, AllocError> {
    let mut lemmas = Vec::new(alloc);
    for lemma in 0..count {
        lemmas.push(fails(index, lemma))?;
    }
    Ok(lemmas)
}

/// Adds a theory with so many lemmas.
fn push_theory(
    alloc: Global,
    session: &mut Session,
    parents: Vec<u32>,
    index: u32,
    lemmas: u32,
) -> Result<(), AllocError> {
    session.shape.push(Node { parents })?;
    session.lemmas.push(lemmas_of(alloc, index, lemmas)?)?;
    Ok(())
}

/// Adds so many theories, with so many lemmas each.
fn push_theories(
    alloc: Global,
    session: &mut Session,
    imports: Imports,
    theories: u32,
    lemmas: u32,
) -> Result<(), AllocError> {
    for number in 0..theories {
        let index = number + 1;
        let parents = parents(alloc, imports, index)?;
        push_theory(alloc, session, parents, index, lemmas)?;
    }
    Ok(())
}

/// A session of so many theories, with so many lemmas each.
fn session(
    alloc: Global,
    imports: Imports,
    theories: u32,
    lemmas: u32,
) -> Result<Session, AllocError> {
    let mut session = Session {
        shape: Vec::new(alloc),
        lemmas: Vec::new(alloc),
    };
    push_theories(alloc, &mut session, imports, theories, lemmas)?;
    Ok(session)
}

/// The session of the fields IMPORTS, THEORIES, LEMMAS and KNOWN: the lemmas of the theories behind so many aren't known, so that beginning these wants memory.
fn session_of(
    alloc: Global,
    imports: &[u8],
    theories: &[u8],
    lemmas: &[u8],
    known: &[u8],
) -> Result<Session, Fault> {
    let imports = named(&IMPORTS, imports).ok_or(Fault::Unreadable)?;
    let theories = number(theories)?;
    let lemmas = number(lemmas)?;
    let known = number(known)?;
    let mut session = session(alloc, imports, theories, lemmas)?;
    session.lemmas.truncate(known as usize);
    Ok(session)
}

/// What a row wants of the core at the end.
#[derive(Clone, Copy)]
enum Wanted {
    Settled,
    Stopped,
    All,
    Standing(u8),
}

/// The words for it.
const WANTED: [(&[u8], Wanted); 7] = [
    (b"settled", Wanted::Settled),
    (b"stopped", Wanted::Stopped),
    (b"all", Wanted::All),
    (b"o", Wanted::Standing(b'o')),
    (b"x", Wanted::Standing(b'x')),
    (b"c", Wanted::Standing(b'c')),
    (b"open", Wanted::Standing(b'?')),
];

/// Whether the core is so: all promises are settled as the session says, the work was stopped, or so many promises are there or stand so.
fn is_so(
    alloc: Global,
    session: &Session,
    core: &Core<Session>,
    wanted: Wanted,
    count: &[u8],
) -> Result<bool, Fault> {
    match wanted {
        Wanted::Settled => Ok(are_all_settled(alloc, session, core)?),
        Wanted::Stopped => Ok(core.stopped()),
        Wanted::All => Ok(core.count() == number(count)?),
        Wanted::Standing(letter) => Ok(count_of(core, letter) == number(count)?),
    }
}

/// Whether the core is as all these words want it, with blanks between them.
pub(crate) fn are_so(
    alloc: Global,
    session: &Session,
    core: &Core<Session>,
    words: &[u8],
) -> Result<bool, Fault> {
    for word in words.split(is_blank) {
        let (name, count) = cut(word, b':');
        let wanted = named(&WANTED, name).ok_or(Fault::Unreadable)?;
        if !is_so(alloc, session, core, wanted, count)? {
            return Ok(false);
        }
    }
    Ok(true)
}

/// How a session is run: by so many workers, so many times, under the policy of these words; and what is wanted of the core at the end.
#[derive(Clone, Copy)]
struct Run<'r> {
    workers: u32,
    times: u32,
    policy: &'r [u8],
    wanted: &'r [u8],
}

/// Whether a run of the session leaves a core that is as it must be.
fn run_leaves<R: Threads + Wait + Sync>(
    rt: &R,
    alloc: Global,
    session: &Session,
    policy: Policy,
    run: Run,
) -> Result<bool, Fault> {
    let workers = run.workers.max(1);
    let closed = run_session(rt, alloc, session, policy, workers, &OpenGate::make())?;
    let holds = are_so(alloc, session, closed.core(), run.wanted);
    mem::forget(closed);
    holds
}

/// Whether all runs of the session do.
fn runs_leave<R: Threads + Wait + Sync>(
    rt: &R,
    alloc: Global,
    session: &Session,
    run: Run,
) -> Result<bool, Fault> {
    for _ in 0..run.times {
        let policy = policy_of(alloc, run.policy)?;
        if !run_leaves(rt, alloc, session, policy, run)? {
            return Ok(false);
        }
    }
    Ok(true)
}

/// Whether the row `runs WORKERS TIMES POLICY IMPORTS THEORIES LEMMAS KNOWN WANTED` holds.
pub(crate) fn runs<R: Threads + Wait + Sync>(
    rt: &R,
    alloc: Global,
    row: &Row,
) -> Result<bool, Fault> {
    let [
        _,
        workers,
        times,
        policy,
        imports,
        theories,
        lemmas,
        known,
        wanted,
    ] = row.fields_from(0)
    else {
        return Err(Fault::Unreadable);
    };
    let run = Run {
        workers: positive(workers)?,
        times: positive(times)?,
        policy,
        wanted,
    };
    let session = session_of(alloc, imports, theories, lemmas, known)?;
    let holds = runs_leave(rt, alloc, &session, run);
    mem::forget(session);
    holds
}

/// Whether so many proofs give up where so many workers run the session of two proofs.
fn gives_up<R: Threads + Wait + Sync>(
    rt: &R,
    alloc: Global,
    session: &Session,
    workers: u32,
    gate: &Meeting,
) -> Result<bool, AllocError> {
    let policy = Policy {
        fail_fast: false,
        cancels: Vec::new(alloc),
    };
    let closed = run_session(rt, alloc, session, policy, workers.max(1), gate)?;
    mem::forget(closed);
    Ok(gate.entered() == 2 && gate.left() == 2)
}

/// Whether the row `meets WORKERS TURNS GIVEN_UP` holds.
pub(crate) fn meets<R: Threads + Wait + Sync>(
    rt: &R,
    alloc: Global,
    row: &Row,
) -> Result<bool, Fault> {
    let [_, workers, turns, given_up] = row.fields_from(0) else {
        return Err(Fault::Unreadable);
    };
    let workers = positive(workers)?;
    let gate = Meeting::make(2, number(turns)?);
    let given_up = u64::from(number(given_up)?);
    let session = session(alloc, Imports::Nothing, 1, 2)?;
    let has_met = gives_up(rt, alloc, &session, workers, &gate);
    mem::forget(session);
    Ok(has_met? && gate.given_up() == given_up)
}

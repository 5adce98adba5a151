//! Works whose commands and proofs act so that it can be told what runs at once.
use crate::fields::{cut, is_blank, number, parents_of, policy_of, positive};
use pure_core::{Node, Policy};
use pure_plays::{Act, Acts, Command, run_acts};
use pure_rows::{Fault, Row, named};
use pure_trials::Session;
use std::alloc::{AllocError, Global};
use std::mem;
use std::sync::Wait;
use std::thread::Threads;

/// The letters for commands.
const COMMANDS: [(&[u8], Command); 9] = [
    (b".", Command::Acts(Act::Pause)),
    (b"?", Command::Acts(Act::Wait)),
    (b"+", Command::Acts(Act::Meet)),
    (b"p", Command::Forks(Act::Pause)),
    (b"o", Command::Forks(Act::Wait)),
    (b"m", Command::Forks(Act::Meet)),
    (b"w", Command::Forks(Act::Walk)),
    (b"x", Command::Forks(Act::Fault)),
    (b"n", Command::Forks(Act::NoMemory)),
];

/// Works of theories with commands: how many marks who waits wants, at the gate how many, and what is counted at the end.
#[derive(Clone, Copy)]
struct Play<'r> {
    theories: &'r [u8],
    wanted: u32,
    wanted_after: u32,
    marks: u32,
    given_up: u32,
    walked: u32,
}

/// The commands that are written so, the last first.
fn commands_of(alloc: Global, letters: &[u8]) -> Result<Vec<Command>, Fault> {
    let mut commands = Vec::new(alloc);
    for letter in letters.chunks(1) {
        commands.push(named(&COMMANDS, letter).ok_or(Fault::Unreadable)?)?;
    }
    commands.reverse();
    Ok(commands)
}

/// The theories' parents.
fn session_of(alloc: Global, theories: &[u8]) -> Result<Session, Fault> {
    let mut session = Session {
        shape: Vec::new(alloc),
        lemmas: Vec::new(alloc),
    };
    for theory in theories.split(is_blank) {
        let (digits, _) = cut(theory, b':');
        let parents = parents_of(alloc, digits)?;
        session.shape.push(Node { parents })?;
    }
    Ok(session)
}

/// The theories' commands.
fn all_commands(alloc: Global, theories: &[u8]) -> Result<Vec<Vec<Command>>, Fault> {
    let mut all = Vec::new(alloc);
    for theory in theories.split(is_blank) {
        let (_, letters) = cut(theory, b':');
        all.push(commands_of(alloc, letters)?)?;
    }
    Ok(all)
}

/// The play's work.
fn acts_of(alloc: Global, play: Play) -> Result<Acts, Fault> {
    let commands = all_commands(alloc, play.theories)?;
    let session = session_of(alloc, play.theories)?;
    Ok(Acts::make(session, commands, play.wanted, play.wanted_after))
}

/// Whether at the end so much was counted.
fn are_counted(acts: &Acts, play: Play) -> bool {
    acts.marks() == u64::from(play.marks)
        && acts.given_up() == u64::from(play.given_up)
        && acts.walked() == u64::from(play.walked)
}

/// Runs the work by so many workers.
fn run<R: Threads + Wait + Sync>(
    rt: &R,
    alloc: Global,
    acts: &Acts,
    policy: Policy,
    workers: u32,
) -> Result<(), AllocError> {
    let closed = run_acts(rt, alloc, acts, policy, workers.max(1))?;
    mem::forget(closed);
    Ok(())
}

/// Whether the work, run by so many workers under this policy, counts so.
fn counts<R: Threads + Wait + Sync>(
    rt: &R,
    alloc: Global,
    workers: u32,
    policy: &[u8],
    play: Play,
) -> Result<bool, Fault> {
    let policy = policy_of(alloc, policy)?;
    let acts = acts_of(alloc, play)?;
    let ran = run(rt, alloc, &acts, policy, workers);
    let holds = are_counted(&acts, play);
    mem::forget(acts);
    ran?;
    Ok(holds)
}

/// Whether the row `acts WORKERS TIMES POLICY THEORIES WANTED AFTER MARKS GIVEN_UP WALKED` holds.
pub(crate) fn acts<R: Threads + Wait + Sync>(
    rt: &R,
    alloc: Global,
    row: &Row,
) -> Result<bool, Fault> {
    let [
        _,
        workers,
        times,
        policy,
        theories,
        wanted,
        after,
        marks,
        given_up,
        walked,
    ] = row.fields_from(0)
    else {
        return Err(Fault::Unreadable);
    };
    let play = Play {
        theories,
        wanted: number(wanted)?,
        wanted_after: number(after)?,
        marks: number(marks)?,
        given_up: number(given_up)?,
        walked: number(walked)?,
    };
    let workers = positive(workers)?;
    for _ in 0..positive(times)? {
        if !counts(rt, alloc, workers, policy, play)? {
            return Ok(false);
        }
    }
    Ok(true)
}

//! Calls at the seats of a board, each made when its turn comes.
use crate::fields::{number, policy_of, session_of};
use crate::letters::stand_commanded;
use crate::turns::turns_of;
use pure_core::Policy;
use pure_plays::{Turn, play_closed};
use pure_rows::{Fault, Row};
use pure_trials::Session;
use std::alloc::{AllocError, Global};
use std::mem;
use std::sync::Wait;
use std::thread::Threads;

/// A play: its seats, the words of its policy, and how it leaves the promises.
#[derive(Clone, Copy)]
struct Play<'r> {
    seats: u32,
    policy: &'r [u8],
    wanted: &'r [u8],
}

/// Whether the turns get their replies, and leave the promises so.
fn leaves<R: Threads + Wait + Sync>(
    rt: &R,
    alloc: Global,
    session: &Session,
    policy: Policy,
    turns: &[Turn],
    play: Play,
) -> Result<bool, AllocError> {
    let seats = play.seats.max(1);
    let played = play_closed(rt, alloc, session, policy, seats, turns)?;
    let is_right = played.right;
    let stands = stand_commanded(alloc, played.closed.core(), play.wanted);
    mem::forget(played);
    Ok(is_right && stands?)
}

/// Whether the turns, played under the policy, leave the promises so.
fn leaves_under<R: Threads + Wait + Sync>(
    rt: &R,
    alloc: Global,
    session: &Session,
    turns: &[Turn],
    play: Play,
) -> Result<bool, Fault> {
    let policy = policy_of(alloc, play.policy)?;
    Ok(leaves(rt, alloc, session, policy, turns, play)?)
}

/// Whether the play of the turns that are written so leaves the promises of the session as it must.
fn leaves_after<R: Threads + Wait + Sync>(
    rt: &R,
    alloc: Global,
    session: &Session,
    turns: &[Vec<u8>],
    play: Play,
) -> Result<bool, Fault> {
    let turns = turns_of(alloc, turns, play.seats)?;
    let holds = leaves_under(rt, alloc, session, &turns, play);
    mem::forget(turns);
    holds
}

/// Whether the row `plays SEATS POLICY THEORIES LETTERS TURN ..` holds.
pub(crate) fn plays<R: Threads + Wait + Sync>(
    rt: &R,
    alloc: Global,
    row: &Row,
) -> Result<bool, Fault> {
    let [_, seats, policy, theories, wanted, ..] = row.fields_from(0) else {
        return Err(Fault::Unreadable);
    };
    let play = Play {
        seats: number(seats)?,
        policy,
        wanted,
    };
    let session = session_of(alloc, theories)?;
    let holds = leaves_after(rt, alloc, &session, row.fields_from(5), play);
    mem::forget(session);
    holds
}

//! The attempts of one worker, tried in their order.
ghost use Rattle.std.specs.Prelude.{◌≡◌, ◌<◌, ◌≤◌, ◌⊎◌, length, map, IfOk, IfSome};
ghost use Rattle.pure_race.specs.Lanes.{AreLanesFrom, IsBound, IsEnd, IsInLane, IsSettled, LaneLoses};

use crate::attempts::Attempts;
use crate::wins::Wins;
use std::alloc::{AllocError, Global};

/// How the attempts of a worker ended: the first of them that wins was found, all lose, those from a number on were left since
/// a lesser one of another worker wins, or memory was wanted.
#[derive(Clone, Copy)]
pub(crate) enum End {
    Won { number: u32 },
    Lost,
    Left { number: u32 },
    Lacking,
}

/// The attempts of one worker, whose number is that of the first, and how they ended; before they are tried, as where memory was
/// wanted.
#[derive(Clone, Copy)]
pub(crate) struct Lane {
    pub(crate) first: usize,
    pub(crate) end: End,
}

/// The lanes of so many workers.
pub(crate) fn fresh_lanes(alloc: Global, width: u32) -> Result<Vec<Lane>, AllocError>
    ensures { IfOk result (λ lanes. (length lanes.items ≡ width) × AreLanesFrom 0 lanes.items) }
{
    let mut lanes = Vec::new(alloc);
    for first in 0..width as usize {
        lanes.push(Lane {
            first,
            end: End::Lacking,
        })?;
    }
    Ok(lanes)
}

/// How the lanes ended, in their order.
pub(crate) fn ends_of(alloc: Global, lanes: &[Lane]) -> Result<Vec<End>, AllocError>
    ensures { IfOk result (λ ends. ends.items ≡ map (λ lane. lane.end) lanes.now) }
{
    let mut ends = Vec::new(alloc);
    for lane in lanes {
        ends.push(lane.end)?;
    }
    Ok(ends)
}

/// Whether an attempt wins; none where it was left, since a lesser one is known to win.
fn attempt<A: Attempts>(attempts: &A, wins: &Wins, number: u32) -> Result<Option<bool>, AllocError>
    requires { number < A.many attempts.now }
    ensures { IfOk result (λ told. IfSome told (λ won. A.wins attempts.now number won)) }
{
    if wins.has_lesser(number) {
        return Ok(None);
    }
    let mut trying = attempts.start(number)?;
    loop {
        if let Some(won) = attempts.advance(number, &mut trying)? {
            return Ok(Some(won));
        }
        if wins.has_lesser(number) {
            return Ok(None);
        }
    }
}

/// Whether an attempt wins.
fn whole_attempt<A: Attempts>(attempts: &A, number: u32) -> Result<bool, AllocError>
    requires { number < A.many attempts.now }
    ensures { IfOk result (λ won. A.wins attempts.now number won) }
{
    let mut trying = attempts.start(number)?;
    loop {
        if let Some(won) = attempts.advance(number, &mut trying)? {
            return Ok(won);
        }
    }
}

/// Tries the attempts of a lane in their order, until one wins or is left.
pub(crate) fn try_lane<A: Attempts>(
    alloc: Global,
    attempts: &A,
    wins: &Wins,
    width: u32,
    lane: usize,
) -> Result<End, AllocError>
    requires { 0 < width }
    ensures { IfOk result (IsEnd (A.wins attempts.now) (A.many attempts.now) width lane) }
{
    let count = attempts.count() as usize;
    let mut number = lane;
    while number < count {
        match attempt(attempts, wins, number as u32)? {
            None => return Ok(End::Left {
                number: number as u32,
            }),
            Some(true) => {
                wins.tell(alloc, lane, number as u32)?;
                return Ok(End::Won {
                    number: number as u32,
                });
            }
            Some(false) => number += width as usize,
        }
    }
    Ok(End::Lost)
}

/// Tries the attempts of a lane from one on that was left and below a bound: the first of them that wins, or the bound.
fn finish_lane<A: Attempts>(
    attempts: &A,
    width: u32,
    lane: usize,
    left: u32,
    bound: u32,
) -> Result<u32, AllocError>
    requires width { 0 < width }
    requires left { IsInLane width lane left × LaneLoses (A.wins attempts.now) width lane left }
    requires bound { IsBound (A.wins attempts.now) (A.many attempts.now) bound }
    ensures { IfOk result (IsSettled (A.wins attempts.now) (A.many attempts.now) width lane bound) }
{
    let mut number = left as usize;
    while number < bound as usize {
        if whole_attempt(attempts, number as u32)? {
            return Ok(number as u32);
        }
        number += width as usize;
    }
    Ok(bound)
}

/// The lesser of two numbers.
pub(crate) fn lesser(one: u32, other: u32) -> u32
    ensures bound { (result ≤ one) × (result ≤ other) }
    ensures chosen { (result ≡ one) ⊎ (result ≡ other) }
{
    if one < other { one } else { other }
}

/// The lesser of a bound and of the first attempt of a lane that wins; what the lane has left below the bound is tried.
///
/// # Errors
///
/// Want of memory, now or in the lane.
pub(crate) fn settle_lane<A: Attempts>(
    attempts: &A,
    width: u32,
    lane: usize,
    end: End,
    bound: u32,
) -> Result<u32, AllocError>
    requires width { 0 < width }
    requires ended { IsEnd (A.wins attempts.now) (A.many attempts.now) width lane end }
    requires bound { IsBound (A.wins attempts.now) (A.many attempts.now) bound }
    ensures { IfOk result (IsSettled (A.wins attempts.now) (A.many attempts.now) width lane bound) }
{
    match end {
        End::Won { number } => Ok(lesser(bound, number)),
        End::Lost => Ok(bound),
        End::Left { number } => finish_lane(attempts, width, lane, number, bound),
        End::Lacking => Err(AllocError),
    }
}

//! Scripts of calls at the seats of a board, each made when its turn comes, those of each seat by a thread of its own.
ghost use Rattle.std.specs.Prelude.{◌≡◌, ◌<◌, [], All, IfOk};
ghost use Rattle.pure_text.specs.Lists.{EachTwo};
ghost use Rattle.pure_pool.specs.Seated.{IsSameSeat};
ghost use Rattle.pure_plays.specs.Hands.{IsInHand};

use crate::boards::close;
use crate::hands::{Call, Hand, Reply, make};
use crossbeam_utils::Backoff;
use pure_board::{Board, Closed, Opened, Seat};
use pure_core::Policy;
use pure_trials::{Session, shape_of};
use std::alloc::{AllocError, Global};
use std::sync::Wait;
use std::sync::atomic::{AtomicU64, Ordering};
use std::thread;
use std::thread::Threads;

/// The place of a seat, a call there, and the reply that is wanted.
pub type Turn = (usize, Call, Reply);

/// How many times a thread looks whether it is its turn.
const LOOKS: u32 = 1_000_000;

/// How many turns were made, and how many went wrong.
#[derive(Drop)]
struct Count {
    made: AtomicU64,
    wrong: AtomicU64,
}

impl Count {
    fn new() -> Count {
        Count {
            made: AtomicU64::new(0),
            wrong: AtomicU64::new(0),
        }
    }

    fn is_wrong(&self) -> bool {
        self.wrong.load(Ordering::SeqCst) > 0
    }

    fn is_at(&self, turns: usize) -> bool {
        self.made.load(Ordering::SeqCst) == turns as u64
    }

    /// Waits until so many turns were made; whether they were, and none went wrong.
    fn wait_for(&self, turns: usize) -> bool {
        let backoff = Backoff::new();
        for _ in 0..LOOKS {
            if self.is_wrong() {
                return false;
            }
            if self.is_at(turns) {
                return true;
            }
            backoff.snooze();
        }
        self.add(false);
        false
    }

    /// Counts a turn.
    fn add(&self, right: bool) {
        if !right {
            self.wrong.fetch_add(1, Ordering::SeqCst);
        }
        self.made.fetch_add(1, Ordering::SeqCst);
    }
}

/// Makes the turn of this number when its time comes, if it is the seat's; what the seat has in hand then.
fn play_turn<R: Wait>(
    rt: &R,
    board: &Board<Session>,
    seat: &mut Seat<Session>,
    hand: Hand,
    place: usize,
    turn: Turn,
    number: usize,
    count: &Count,
) -> Hand
    requires board { seat.old.plan ≡ board.now }
    requires hand { IsInHand seat.old hand }
    ensures seat { IsSameSeat seat.old seat.new }
    ensures hand { IsInHand seat.new result }
{
    let (at, asked, wanted) = turn;
    if at != place {
        return hand;
    }
    if !count.wait_for(number) {
        return hand;
    }
    let answer = make(rt, board, seat, hand, asked);
    count.add(answer.reply == wanted);
    answer.hand
}

/// Makes the turns of one seat that has entered nothing yet.
fn play_seat<R: Wait>(
    rt: &R,
    board: &Board<Session>,
    seat: &mut Seat<Session>,
    place: usize,
    script: &[Turn],
    count: &Count,
)
    requires board { seat.old.plan ≡ board.now }
    requires fresh { seat.old.own ≡ [] }
    ensures { IsSameSeat seat.old seat.new }
{
    seat.known();
    let mut hand = Hand::Nothing;
    for i in 0..script.len() {
        hand = play_turn(rt, board, seat, hand, place, script[i], i, count);
    }
}

/// Makes all turns, those of each seat by a thread of its own; whether each reply is the one that is wanted.
fn play<R: Threads + Wait + Sync>(
    rt: &R,
    board: &Board<Session>,
    seats: &mut [Seat<Session>],
    script: &[Turn],
) -> bool
    requires seats { All (λ seat. (seat.plan ≡ board.now) × (seat.own ≡ [])) seats.old }
    ensures { EachTwo IsSameSeat seats.old seats.new }
{
    let count = Count::new();
    let threads = seats.len();
    if threads == 0 {
        return script.is_empty();
    }
    let player = |place: usize, seat: &mut Seat<Session>|
        requires { (seat.now.plan ≡ board.now) × (seat.now.own ≡ []) }
        ensures { IsSameSeat seat.entry.now seat.exit.now }
    { play_seat(rt, board, seat, place, script, &count) };
    thread::for_each_mut(rt, seats, threads, &player);
    count.is_at(script.len()) && !count.is_wrong()
}

/// A board on which a script was played, closed, and whether each reply was the one that is wanted.
#[derive(Drop)]
pub struct Played {
    pub closed: Closed<Session>,
    pub right: bool,
}

/// Plays the script on a board for the session, with so many seats, and closes the board.
///
/// # Errors
///
/// Want of memory at the opening, and a session that is none.
pub fn play_closed<R: Threads + Wait + Sync>(
    rt: &R,
    alloc: Global,
    session: &Session,
    policy: Policy,
    workers: u32,
    script: &[Turn],
) -> Result<Played, AllocError>
    requires some { 0 < workers }
    ensures { IfOk result (λ played. played.closed.session ≡ session.now) }
{
    let shape = shape_of(alloc, session)?;
    let Opened { board, mut seats } = Board::open(alloc, session, shape, policy, workers)?;
    let right = play(rt, &board, seats.as_mut_slice(), script);
    let closed = close(board, seats);
    Ok(Played { closed, right })
}

//! Calls of a seat, one by one, by a worker that remembers what it has in hand.
ghost use Rattle.std.specs.Prelude.{◌≡◌};
ghost use Rattle.pure_machine.specs.Step.{stops};
ghost use Rattle.pure_pool.specs.Seated.{IsSameSeat};
ghost use Rattle.pure_pool.specs.Held.{Nothing, Theory, Proof};
ghost use Rattle.pure_plays.specs.Hands.{HasInHand, IsInHand};

use pure_board::{Board, Seat};
use pure_core::{Delivered, Polled, Task};
use pure_trials::Session;
use std::sync::{Arc, Wait};

/// What a worker has in hand at its seat; `Over` once it asks for nothing but tasks.
#[derive(Clone, Copy)]
pub enum Hand {
    Nothing,
    Theory { index: u32 },
    Proof { number: u32 },
    Over,
}

/// A call of a board, of what is in hand: a fork has its command and its goal, a close its value, and a delivery its outcome.
#[derive(Clone, Copy)]
pub enum Call {
    Take,
    Fork(u32, bool),
    Close(u32),
    Poll,
    Deliver(bool),
    Stop,
}

/// What a call is answered: a theory has its number and the values of its parents as digits in their order, a proof its number and
/// its goal, and a fork its number.
#[derive(Clone, Copy, PartialEq, Eq)]
pub enum Reply {
    Theory(u32, u32),
    Proof(u32, bool),
    Idle,
    Finished,
    Stopped,
    Forked(u32),
    Closed,
    Kept,
    Cancelled,
    Go,
    NoMemory,
    NotInHand,
}

/// A reply, and what is in hand then.
#[derive(Clone, Copy)]
pub struct Answer {
    pub reply: Reply,
    pub hand: Hand,
}

/// The numbers as the digits of one.
fn digits(values: &[Arc<u32>]) -> u32 {
    let mut number = 0u32;
    for value in values {
        number = number.wrapping_mul(10).wrapping_add(**value);
    }
    number
}

/// Takes what is there to do, with nothing in hand.
fn take<R: Wait>(rt: &R, board: &Board<Session>, seat: &mut Seat<Session>) -> Answer
    requires board { seat.old.plan ≡ board.now }
    requires hand { HasInHand seat.old Nothing }
    ensures seat { IsSameSeat seat.old seat.new }
    ensures hand { IsInHand seat.new result.hand }
{
    match board.take(rt, seat) {
        Err(_) => Answer {
            reply: Reply::NoMemory,
            hand: Hand::Nothing,
        },
        Ok(Task::Theory { index, parents }) => Answer {
            reply: Reply::Theory(index, digits(parents.as_slice())),
            hand: Hand::Theory { index },
        },
        Ok(Task::Proof { number, goal }) => Answer {
            reply: Reply::Proof(number, *goal),
            hand: Hand::Proof { number },
        },
        Ok(Task::Idle) => Answer {
            reply: Reply::Idle,
            hand: Hand::Nothing,
        },
        Ok(Task::Finished) => Answer {
            reply: Reply::Finished,
            hand: Hand::Over,
        },
        Ok(Task::Stopped) => Answer {
            reply: Reply::Stopped,
            hand: Hand::Over,
        },
    }
}

/// Asks for what is there to do, at the end.
fn take_over<R: Wait>(rt: &R, board: &Board<Session>, seat: &mut Seat<Session>) -> Answer
    requires board { seat.old.plan ≡ board.now }
    ensures seat { IsSameSeat seat.old seat.new }
    ensures hand { IsInHand seat.new result.hand }
{
    let reply = match board.take(rt, seat) {
        Ok(Task::Finished) => Reply::Finished,
        Ok(Task::Stopped) => Reply::Stopped,
        Ok(Task::Idle) => Reply::Idle,
        _ => Reply::NotInHand,
    };
    Answer {
        reply,
        hand: Hand::Over,
    }
}

/// A promise more, of a command of the theory in hand.
fn fork<R: Wait>(
    rt: &R,
    board: &Board<Session>,
    seat: &mut Seat<Session>,
    theory: u32,
    command: u32,
    goal: bool,
) -> Reply
    requires board { seat.old.plan ≡ board.now }
    requires hand { HasInHand seat.old (Theory theory) }
    ensures seat { IsSameSeat seat.old seat.new }
    ensures hand { HasInHand seat.new (Theory theory) }
{
    match board.fork(rt, seat, theory, command, goal) {
        Err(_) => Reply::NoMemory,
        Ok(number) => Reply::Forked(number),
    }
}

/// Closes the theory in hand.
fn close<R: Wait>(
    rt: &R,
    board: &Board<Session>,
    seat: &mut Seat<Session>,
    theory: u32,
    value: u32,
) -> Answer
    requires board { seat.old.plan ≡ board.now }
    requires hand { HasInHand seat.old (Theory theory) }
    ensures seat { IsSameSeat seat.old seat.new }
    ensures hand { IsInHand seat.new result.hand }
{
    match board.close_theory(rt, seat, theory, value) {
        Err(_) => Answer {
            reply: Reply::NoMemory,
            hand: Hand::Theory { index: theory },
        },
        Ok(()) => Answer {
            reply: Reply::Closed,
            hand: Hand::Nothing,
        },
    }
}

/// Asks whether the proof in hand goes on.
fn poll<R: Wait>(rt: &R, board: &Board<Session>, seat: &mut Seat<Session>, number: u32) -> Reply
    requires board { seat.old.plan ≡ board.now }
    requires hand { HasInHand seat.old (Proof number) }
    ensures seat { IsSameSeat seat.old seat.new }
    ensures hand { HasInHand seat.new (Proof number) }
{
    match board.poll(rt, seat, number) {
        Polled::Go => Reply::Go,
        Polled::Cancelled => Reply::Cancelled,
        Polled::Stopped => Reply::Stopped,
    }
}

/// Delivers an outcome of the proof in hand, which is a fault where it is `true`.
fn deliver<R: Wait>(
    rt: &R,
    board: &Board<Session>,
    seat: &mut Seat<Session>,
    number: u32,
    outcome: bool,
) -> Answer
    requires board { seat.old.plan ≡ board.now }
    requires hand { HasInHand seat.old (Proof number) }
    ensures seat { IsSameSeat seat.old seat.new }
    ensures hand { IsInHand seat.new result.hand }
{
    match board.deliver(rt, seat, number, outcome, outcome) {
        Err(_) => Answer {
            reply: Reply::NoMemory,
            hand: Hand::Proof { number },
        },
        Ok(Delivered::Kept) => Answer {
            reply: Reply::Kept,
            hand: Hand::Nothing,
        },
        Ok(Delivered::Cancelled) => Answer {
            reply: Reply::Cancelled,
            hand: Hand::Nothing,
        },
    }
}

/// Stops the work, with whatever is in hand.
fn stop<R: Wait>(rt: &R, board: &Board<Session>, seat: &mut Seat<Session>) -> Answer
    requires board { seat.old.plan ≡ board.now }
    requires once { stops seat.old.own ≡ 0 }
    ensures seat { IsSameSeat seat.old seat.new }
    ensures hand { IsInHand seat.new result.hand }
{
    board.stop(rt, seat);
    Answer {
        reply: Reply::Stopped,
        hand: Hand::Over,
    }
}

/// Makes the call, if what is in hand allows it.
pub fn make<R: Wait>(
    rt: &R,
    board: &Board<Session>,
    seat: &mut Seat<Session>,
    hand: Hand,
    call: Call,
) -> Answer
    requires board { seat.old.plan ≡ board.now }
    requires hand { IsInHand seat.old hand }
    ensures seat { IsSameSeat seat.old seat.new }
    ensures hand { IsInHand seat.new result.hand }
{
    match (call, hand) {
        (Call::Take, Hand::Nothing) => take(rt, board, seat),
        (Call::Take, Hand::Over) => take_over(rt, board, seat),
        (Call::Fork(command, goal), Hand::Theory { index }) => Answer {
            reply: fork(rt, board, seat, index, command, goal),
            hand,
        },
        (Call::Close(value), Hand::Theory { index }) => close(rt, board, seat, index, value),
        (Call::Poll, Hand::Proof { number }) => Answer {
            reply: poll(rt, board, seat, number),
            hand,
        },
        (Call::Deliver(outcome), Hand::Proof { number }) => {
            deliver(rt, board, seat, number, outcome)
        }
        (Call::Stop, Hand::Nothing) => stop(rt, board, seat),
        (Call::Stop, Hand::Theory { .. }) => stop(rt, board, seat),
        (Call::Stop, Hand::Proof { .. }) => stop(rt, board, seat),
        _ => Answer {
            reply: Reply::NotInHand,
            hand,
        },
    }
}

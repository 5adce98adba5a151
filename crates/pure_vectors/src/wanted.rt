//! What runs must answer.
use crate::marks::is_semicolon;
use crate::world::{Answer, World, run};
use pure_check::Status;
use pure_io::OpenGate;
use std::alloc::{AllocError, Global};
use std::rt::Files;
use std::sync::Wait;
use std::thread::Threads;

/// What must be written: all of a text, or how it begins and ends.
#[derive(Clone, Copy)]
pub(crate) enum Written<'w> {
    Whole(&'w [u8]),
    Ends(&'w [u8], &'w [u8]),
}

/// The first words of jobs that hand out no board.
const WITHOUT_BOARD: [&[u8]; 4] = [b"show", b"replay", b"find", b"try"];

/// What a run must answer and write.
#[derive(Clone, Copy)]
pub(crate) struct Wanted<'w> {
    pub(crate) status: Status,
    pub(crate) written: Written<'w>,
}

/// Whether this was written.
fn is_written(wanted: Written, bytes: &[u8]) -> bool {
    match wanted {
        Written::Whole(text) => bytes == text,
        Written::Ends(front, end) => bytes.starts_with(front) && bytes.ends_with(end),
    }
}

/// Whether the job of these words hands out a board.
fn is_boarding(line: &[u8]) -> bool {
    !WITHOUT_BOARD.iter().any(|word| line.starts_with(word))
}

/// Whether a call that answers this hands out the board on which it checked, where its job does.
fn has_board(status: Status) -> bool {
    match status {
        Status::Clean | Status::Rows | Status::WriteFault => true,
        Status::Usage | Status::ReadFault | Status::Memory => false,
    }
}

/// Whether the answer is so, whatever board it hands out.
fn is_told(wanted: Wanted, got: &Answer) -> bool {
    got.status == wanted.status && is_written(wanted.written, &got.bytes)
}

/// Whether the answer is so, with a board where there must be one.
pub(crate) fn is_answered(wanted: Wanted, got: &Answer) -> bool {
    is_told(wanted, got) && got.has_board == has_board(wanted.status)
}

/// Whether the answer to the words of a line is so, with a board where their job hands out one.
fn is_answered_to(line: &[u8], wanted: Wanted, got: &Answer) -> bool {
    if is_boarding(line) {
        return is_answered(wanted, got);
    }
    is_told(wanted, got) && !got.has_board
}

/// Prints an answer that isn't as it must be.
pub(crate) fn show<R: Files + Print + AllocGlobal>(rt: &R, got: &Answer) {
    let status = got.status.number();
    let text = std::str::from_utf8(&got.bytes).unwrap_or("no text");
    let _ = println!(rt; "answered {status}, and wrote this:\n{text}");
}

/// Whether the answer is so; it is printed where it isn't.
pub(crate) fn is_shown<R: Files + Print + AllocGlobal>(
    rt: &R,
    wanted: Wanted,
    got: &Answer,
) -> bool {
    let is_right = is_answered(wanted, got);
    if !is_right {
        show(rt, got);
    }
    is_right
}

/// Whether a run in the world with the words of the line answers what is wanted.
fn answers<R: Files + Print + AllocGlobal + Threads + Wait + Sync>(
    rt: &R,
    alloc: Global,
    world: World,
    line: &[u8],
    wanted: Wanted,
) -> Result<bool, AllocError> {
    let got = run(rt, alloc, world, line, &OpenGate::make())?;
    let is_right = is_answered_to(line, wanted, &got);
    if !is_right {
        show(rt, &got);
    }
    Ok(is_right)
}

/// Whether runs in the world, one for each line of words between `;`, all do.
pub(crate) fn check<R: Files + Print + AllocGlobal + Threads + Wait + Sync>(
    rt: &R,
    alloc: Global,
    world: World,
    lines: &[u8],
    wanted: Wanted,
) -> Result<bool, AllocError> {
    for line in lines.split(is_semicolon) {
        if !answers(rt, alloc, world, line, wanted)? {
            return Ok(false);
        }
    }
    Ok(true)
}

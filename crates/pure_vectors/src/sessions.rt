//! Sessions that are checked under policies by one worker and by several.
use crate::fates::{Places, cancelled_in, place_of, table_with};
use crate::files::push_theories;
use crate::heeded::{is_heeded, is_policy};
use crate::marks::{is_bar, is_blank, is_line_feed};
use crate::wanted::{Wanted, Written, is_answered, show};
use crate::words::{given, number};
use crate::world::{Answer, World, run};
use pure_check::Status;
use pure_io::{File, OpenGate};
use pure_rows::{Fault, Row, named};
use std::alloc::{AllocError, Global};
use std::rt::Files;
use std::sync::Wait;
use std::thread::Threads;

/// How many lines a session has at most.
const MOST: usize = 64;

/// Whether each line has its three parts.
fn are_lines(lines: &[u8]) -> bool {
    let mut all = lines.split(is_line_feed);
    all.all(|line| line.split(is_bar).count() == 3)
}

/// The session of the last row that gave one: its theories, and a line for each row of its table.
#[derive(Drop)]
pub(crate) struct Session {
    files: Vec<File>,
    lines: Vec<u8>,
}

impl Session {
    /// No session yet.
    pub(crate) fn none(alloc: Global) -> Session {
        Session {
            files: Vec::new(alloc),
            lines: Vec::new(alloc),
        }
    }

    /// Keeps the session with these theories and lines.
    fn keep(&mut self, alloc: Global, theories: &[u8], lines: &[u8]) -> Result<(), AllocError> {
        self.files.clear();
        push_theories(alloc, &mut self.files, theories)?;
        self.lines.clear();
        self.lines.extend_from_slice(lines)
    }

    /// Keeps the session of the row `session THEORIES LINES`.
    pub(crate) fn read(&mut self, alloc: Global, row: &Row) -> Result<bool, Fault> {
        let [_, theories, lines] = row.fields_from(0) else {
            return Err(Fault::Unreadable);
        };
        if lines.split(is_line_feed).count() > MOST || !are_lines(lines) {
            return Err(Fault::Unreadable);
        }
        self.keep(alloc, theories, lines)?;
        Ok(true)
    }
}

/// The places of the lemmas with these names, with blanks between them.
fn places_of(lines: &[u8], names: &[u8]) -> Result<Places, Fault> {
    let mut places = Places::none();
    for name in names.split(is_blank) {
        if !name.is_empty() {
            let place = place_of(lines, name).ok_or(Fault::Unreadable)?;
            places = places.with(place);
        }
    }
    Ok(places)
}

/// Whether the answer is the session's table where just those lemmas are cancelled that it says, and so many workers heeded the policy.
fn is_right(
    alloc: Global,
    session: &Session,
    got: &Answer,
    policy: &[u8],
    workers: usize,
) -> Result<bool, AllocError> {
    let cancelled = cancelled_in(&session.lines, &got.bytes);
    let text = table_with(alloc, &session.lines, session.files.len(), cancelled)?;
    let wanted = Wanted {
        status: Status::Rows,
        written: Written::Whole(&text),
    };
    let is_heeded = is_heeded(policy, &session.lines, cancelled, workers);
    Ok(is_heeded && is_answered(wanted, got))
}

/// The same, with the answer printed where it isn't right.
fn is_right_or_shown<R: Files + Print + AllocGlobal>(
    rt: &R,
    alloc: Global,
    session: &Session,
    got: &Answer,
    policy: &[u8],
    workers: usize,
) -> Result<bool, AllocError> {
    let is_right = is_right(alloc, session, got, policy, workers)?;
    if !is_right {
        show(rt, got);
    }
    Ok(is_right)
}

/// Whether so many workers heed the policy in a run with the words of the line.
fn heeds_once<R: Files + Print + AllocGlobal + Threads + Wait + Sync>(
    rt: &R,
    alloc: Global,
    session: &Session,
    line: &[u8],
    policy: &[u8],
    workers: usize,
) -> Result<bool, AllocError> {
    let world = World::of_files(&session.files);
    let got = run(rt, alloc, world, line, &OpenGate::make())?;
    is_right_or_shown(rt, alloc, session, &got, policy, workers)
}

/// The words of a check by so many workers under the policy.
fn line_of(alloc: Global, workers: &[u8], policy: &[u8]) -> Result<Vec<u8>, AllocError> {
    let mut line = Vec::from_slice(alloc, b"check -j ")?;
    line.extend_from_slice(workers)?;
    line.push(b' ')?;
    line.extend_from_slice(policy)?;
    Ok(line)
}

/// Whether so many workers heed the policy so many times.
fn heeds_always<R: Files + Print + AllocGlobal + Threads + Wait + Sync>(
    rt: &R,
    alloc: Global,
    session: &Session,
    times: u32,
    line: &[u8],
    policy: &[u8],
    workers: usize,
) -> Result<bool, AllocError> {
    for _ in 0..times {
        if !heeds_once(rt, alloc, session, line, policy, workers)? {
            return Ok(false);
        }
    }
    Ok(true)
}

/// Whether the row `heeds WORKERS TIMES POLICY` holds of the session.
pub(crate) fn heeds<R: Files + Print + AllocGlobal + Threads + Wait + Sync>(
    rt: &R,
    alloc: Global,
    session: &Session,
    row: &Row,
) -> Result<bool, Fault> {
    let [_, workers, times, policy] = row.fields_from(0) else {
        return Err(Fault::Unreadable);
    };
    let policy = given(policy);
    let count = number(workers)? as usize;
    let times = number(times)?;
    if times == 0 || !is_policy(policy) {
        return Err(Fault::Unreadable);
    }
    let line = line_of(alloc, workers, policy)?;
    Ok(heeds_always(rt, alloc, session, times, &line, policy, count)?)
}

/// The words for a policy that was heeded, and for one that wasn't.
const HEEDED: [(&[u8], bool); 2] = [(b"yes", true), (b"no", false)];

/// Whether the row `verdict WORKERS POLICY CANCELLED HEEDED` holds of the session.
pub(crate) fn verdict(session: &Session, row: &Row) -> Result<bool, Fault> {
    let [_, workers, policy, cancelled, heeded] = row.fields_from(0) else {
        return Err(Fault::Unreadable);
    };
    let policy = given(policy);
    let workers = number(workers)? as usize;
    let wanted = named(&HEEDED, heeded).ok_or(Fault::Unreadable)?;
    if !is_policy(policy) {
        return Err(Fault::Unreadable);
    }
    let cancelled = places_of(&session.lines, given(cancelled))?;
    Ok(is_heeded(policy, &session.lines, cancelled, workers) == wanted)
}

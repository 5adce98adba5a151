//! What the first field of a row names.
use crate::folders::{Part, counts, cuts, fails, long, writes};
use crate::gates::holds;
use crate::generated::{generates, generates_file};
use crate::missing::misses;
use crate::sessions::{Session, heeds, verdict};
use crate::tables::{prints, rows};
use pure_rows::{Fault, Outcome, Row, named};
use std::alloc::Global;
use std::rt::Files;
use std::sync::Wait;
use std::thread::Threads;

/// What a row speaks of.
#[derive(Clone, Copy)]
enum Kind {
    Rows,
    Prints,
    Writes(Part),
    Cuts,
    Counts,
    Long,
    Fails,
    Misses,
    Generates,
    GeneratesFile,
    Session,
    Heeds,
    Verdict,
    Holds,
}

/// The first fields of rows.
const KINDS: [(&[u8], Kind); 16] = [
    (b"rows", Kind::Rows),
    (b"prints", Kind::Prints),
    (b"writes", Kind::Writes(Part::Whole)),
    (b"begins", Kind::Writes(Part::Front)),
    (b"ends", Kind::Writes(Part::End)),
    (b"cuts", Kind::Cuts),
    (b"counts", Kind::Counts),
    (b"long", Kind::Long),
    (b"fails", Kind::Fails),
    (b"misses", Kind::Misses),
    (b"generates", Kind::Generates),
    (b"generates_file", Kind::GeneratesFile),
    (b"session", Kind::Session),
    (b"heeds", Kind::Heeds),
    (b"verdict", Kind::Verdict),
    (b"holds", Kind::Holds),
];

/// Whether the row holds; a session is kept for the rows behind it.
fn is_met<R: Files + Print + AllocGlobal + Threads + Wait + Sync>(
    rt: &R,
    alloc: Global,
    session: &mut Session,
    row: &Row,
) -> Result<bool, Fault> {
    match named(&KINDS, row.field(0)).ok_or(Fault::Unreadable)? {
        Kind::Rows => rows(rt, alloc, row),
        Kind::Prints => prints(rt, alloc, row),
        Kind::Writes(part) => writes(rt, alloc, row, part),
        Kind::Cuts => cuts(rt, alloc, row),
        Kind::Counts => counts(rt, alloc, row),
        Kind::Long => long(alloc, row),
        Kind::Fails => fails(rt, alloc, row),
        Kind::Misses => misses(rt, alloc, row),
        Kind::Generates => generates(alloc, row),
        Kind::GeneratesFile => generates_file(alloc, row),
        Kind::Session => session.read(alloc, row),
        Kind::Heeds => heeds(rt, alloc, session, row),
        Kind::Verdict => verdict(session, row),
        Kind::Holds => holds(rt, alloc, row),
    }
}

/// What comes of the row.
pub(crate) fn hold<R: Files + Print + AllocGlobal + Threads + Wait + Sync>(
    rt: &R,
    alloc: Global,
    session: &mut Session,
    row: &Row,
) -> Outcome {
    Outcome::of_test(is_met(rt, alloc, session, row))
}

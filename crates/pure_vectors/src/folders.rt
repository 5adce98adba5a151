//! Folders of files that are written in a row, and what runs on them must answer.
use crate::files::{counted_files, files_of, push_file};
use crate::texts::text_of;
use crate::wanted::{Wanted, Written, check};
use crate::words::{number, numbers, status_named};
use crate::world::World;
use pure_io::File;
use pure_rows::{Fault, Row};
use std::alloc::{AllocError, Global};
use std::rt::Files;
use std::sync::Wait;
use std::thread::Threads;

/// What a row gives of the text that is written.
#[derive(Clone, Copy)]
pub(crate) enum Part {
    Whole,
    Front,
    End,
}

/// What must be written where this is that part of it.
fn written(part: Part, text: &[u8]) -> Written<'_> {
    match part {
        Part::Whole => Written::Whole(text),
        Part::Front => Written::Ends(text, b""),
        Part::End => Written::Ends(b"", text),
    }
}

/// Whether runs on the files of these fields answer what is wanted.
fn check_files<R: Files + Print + AllocGlobal + Threads + Wait + Sync>(
    rt: &R,
    alloc: Global,
    fields: &[Vec<u8>],
    lines: &[u8],
    wanted: Wanted,
) -> Result<bool, Fault> {
    let files = files_of(alloc, fields)?;
    Ok(check(rt, alloc, World::of_files(&files), lines, wanted)?)
}

/// Whether the row `writes WORDS STATUS TEXT NAME TEXT ..` holds, or one that gives the front or the end of the text.
pub(crate) fn writes<R: Files + Print + AllocGlobal + Threads + Wait + Sync>(
    rt: &R,
    alloc: Global,
    row: &Row,
    part: Part,
) -> Result<bool, Fault> {
    let [_, lines, status, text, ..] = row.fields_from(0) else {
        return Err(Fault::Unreadable);
    };
    let status = status_named(status)?;
    let text = text_of(alloc, text)?;
    let wanted = Wanted {
        status,
        written: written(part, &text),
    };
    check_files(rt, alloc, row.fields_from(4), lines, wanted)
}

/// How much the sink of a row takes, in all and at once.
#[derive(Clone, Copy)]
struct Room {
    capacity: usize,
    width: usize,
}

/// The room that is written so.
fn room_of(capacity: &[u8], width: &[u8]) -> Result<Room, Fault> {
    Ok(Room {
        capacity: number(capacity)? as usize,
        width: number(width)? as usize,
    })
}

/// Whether runs on the files of these fields, in the world of a library and a sink of which these calls fail, answer what is wanted.
fn check_failing<R: Files + Print + AllocGlobal + Threads + Wait + Sync>(
    rt: &R,
    alloc: Global,
    fields: &[Vec<u8>],
    (reads, writes): (&[u32], &[u32]),
    room: Room,
    lines: &[u8],
    wanted: Wanted,
) -> Result<bool, Fault> {
    let files = files_of(alloc, fields)?;
    let world = World {
        files: &files,
        failing_reads: reads,
        failing_writes: writes,
        capacity: room.capacity,
        width: room.width,
    };
    Ok(check(rt, alloc, world, lines, wanted)?)
}

/// The same of calls that are written so.
fn check_calls<R: Files + Print + AllocGlobal + Threads + Wait + Sync>(
    rt: &R,
    alloc: Global,
    fields: &[Vec<u8>],
    (reads, writes): (&[u8], &[u8]),
    room: Room,
    lines: &[u8],
    wanted: Wanted,
) -> Result<bool, Fault> {
    let reads = numbers(alloc, reads)?;
    let writes = numbers(alloc, writes)?;
    check_failing(rt, alloc, fields, (&reads, &writes), room, lines, wanted)
}

/// Whether the row `fails WORDS READS WRITES CAPACITY WIDTH STATUS TEXT NAME TEXT ..` holds.
pub(crate) fn fails<R: Files + Print + AllocGlobal + Threads + Wait + Sync>(
    rt: &R,
    alloc: Global,
    row: &Row,
) -> Result<bool, Fault> {
    let [_, lines, reads, writes, capacity, width, status, text, ..] = row.fields_from(0) else {
        return Err(Fault::Unreadable);
    };
    let room = room_of(capacity, width)?;
    let status = status_named(status)?;
    let text = text_of(alloc, text)?;
    let wanted = Wanted {
        status,
        written: Written::Whole(&text),
    };
    let fields = row.fields_from(8);
    check_calls(rt, alloc, fields, (reads, writes), room, lines, wanted)
}

/// The one file with this name and this text.
fn one_file(alloc: Global, name: &[u8], text: &[u8]) -> Result<Vec<File>, AllocError> {
    let mut files = Vec::new(alloc);
    let name = Vec::from_slice(alloc, name)?;
    let text = Vec::from_slice(alloc, text)?;
    push_file(&mut files, name, text)?;
    Ok(files)
}

/// Whether runs on the one file answer what is wanted.
fn check_one<R: Files + Print + AllocGlobal + Threads + Wait + Sync>(
    rt: &R,
    alloc: Global,
    name: &[u8],
    text: &[u8],
    lines: &[u8],
    wanted: Wanted,
) -> Result<bool, AllocError> {
    let files = one_file(alloc, name, text)?;
    check(rt, alloc, World::of_files(&files), lines, wanted)
}

/// Whether runs on the file, cut in front of each of its bytes, answer what is wanted; there is a byte.
fn check_cuts<R: Files + Print + AllocGlobal + Threads + Wait + Sync>(
    rt: &R,
    alloc: Global,
    name: &[u8],
    text: &[u8],
    lines: &[u8],
    wanted: Wanted,
) -> Result<bool, AllocError> {
    for end in 0..text.len() {
        if !check_one(rt, alloc, name, &text[..end], lines, wanted)? {
            return Ok(false);
        }
    }
    Ok(!text.is_empty())
}

/// Whether the row `cuts WORDS STATUS FRONT END NAME TEXT` holds.
pub(crate) fn cuts<R: Files + Print + AllocGlobal + Threads + Wait + Sync>(
    rt: &R,
    alloc: Global,
    row: &Row,
) -> Result<bool, Fault> {
    let [_, lines, status, front, end, name, text] = row.fields_from(0) else {
        return Err(Fault::Unreadable);
    };
    let wanted = Wanted {
        status: status_named(status)?,
        written: Written::Ends(front, end),
    };
    let text = text_of(alloc, text)?;
    Ok(check_cuts(rt, alloc, name, &text, lines, wanted)?)
}

/// Whether runs on so many files, named and written by turns, answer what is wanted.
fn check_counted<R: Files + Print + AllocGlobal + Threads + Wait + Sync>(
    rt: &R,
    alloc: Global,
    count: u32,
    (names, texts): (&[u8], &[u8]),
    lines: &[u8],
    wanted: Wanted,
) -> Result<bool, AllocError> {
    let files = counted_files(alloc, count, names, texts)?;
    check(rt, alloc, World::of_files(&files), lines, wanted)
}

/// Whether the row `counts WORDS STATUS TEXT COUNT NAME TEXT` holds.
pub(crate) fn counts<R: Files + Print + AllocGlobal + Threads + Wait + Sync>(
    rt: &R,
    alloc: Global,
    row: &Row,
) -> Result<bool, Fault> {
    let [_, lines, status, text, count, names, texts] = row.fields_from(0) else {
        return Err(Fault::Unreadable);
    };
    let status = status_named(status)?;
    let count = number(count)?;
    let text = text_of(alloc, text)?;
    let wanted = Wanted {
        status,
        written: Written::Whole(&text),
    };
    Ok(check_counted(rt, alloc, count, (names, texts), lines, wanted)?)
}

/// Whether the row `long LEAST MOST TEXT` holds.
pub(crate) fn long(alloc: Global, row: &Row) -> Result<bool, Fault> {
    let [_, least, most, text] = row.fields_from(0) else {
        return Err(Fault::Unreadable);
    };
    let least = number(least)? as usize;
    let most = number(most)? as usize;
    let len = text_of(alloc, text)?.len();
    Ok(least <= len && len <= most)
}

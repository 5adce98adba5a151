//! Libraries and sinks in memory, and standard output.
use crate::answers::{is_reading, reading_of, writing_of};
use crate::words::{MemoryWord, memory_word};
use pure_io::{Failed, File, Library, MemLibrary, MemSink, Sink, StdSink, write_all};
use pure_rows::{Outcome, Row, Subject, number_of};
use pure_text::Text;
use std::alloc::{AllocError, Global};
use std::rt::Files;

/// Libraries and sinks in memory, and standard output.
pub(crate) struct Memory;

impl Subject for Memory {
    fn outcome<R: Files + Print + AllocGlobal>(&self, rt: &R, alloc: Global, row: &Row) -> Outcome {
        match memory_word(row) {
            Some(word) => outcome_of(word_holds(rt, alloc, word, row)),
            None => Outcome::Unreadable,
        }
    }
}

/// Whether what the row says is so, if it can be read.
fn word_holds<R: Files + Print + AllocGlobal>(
    rt: &R,
    alloc: Global,
    word: MemoryWord,
    row: &Row,
) -> Result<Option<bool>, AllocError> {
    match word {
        MemoryWord::Library => answers(rt, alloc, row),
        MemoryWord::Sink => takes(rt, alloc, row),
        MemoryWord::WriteAll => takes_all(rt, alloc, row),
        MemoryWord::Print => Ok(Some(prints(rt, row.field(1)))),
    }
}

/// The outcome of a test that may find nothing to test.
fn outcome_of(answer: Result<Option<bool>, AllocError>) -> Outcome {
    match answer {
        Ok(Some(holds)) => Outcome::of(holds),
        Ok(None) => Outcome::Unreadable,
        Err(_) => Outcome::Memory,
    }
}

/// The numbers between the blanks, or none where one is none. A line stands for no numbers.
fn numbers_in(alloc: Global, written: &[u8]) -> Result<Option<Vec<u32>>, AllocError> {
    let mut numbers = Vec::new(alloc);
    if written == b"-".as_slice() {
        return Ok(Some(numbers));
    }
    for digits in written.split(|byte| *byte == b' ') {
        match number_of(digits) {
            Some(number) => numbers.push(number)?,
            None => return Ok(None),
        }
    }
    Ok(Some(numbers))
}

/// The file that is written `NAME=TEXT`.
fn file_of(alloc: Global, written: &[u8]) -> Result<Option<File>, AllocError> {
    let Some(end) = written.iter().position(|byte| *byte == b'=') else {
        return Ok(None);
    };
    let name = Text::make(alloc, &written[..end])?;
    let text = Text::make(alloc, &written[end + 1..])?;
    Ok(Some(File { name, text }))
}

/// Appends the files between the bars; false where one is none.
fn push_files(alloc: Global, files: &mut Vec<File>, written: &[u8]) -> Result<bool, AllocError> {
    for each in written.split(|byte| *byte == b'|') {
        match file_of(alloc, each)? {
            Some(file) => files.push(file)?,
            None => return Ok(false),
        }
    }
    Ok(true)
}

/// The files between the bars, or none where one is none.
fn files_in(alloc: Global, written: &[u8]) -> Result<Option<Vec<File>>, AllocError> {
    let mut files = Vec::new(alloc);
    if push_files(alloc, &mut files, written)? {
        Ok(Some(files))
    } else {
        Ok(None)
    }
}

/// The library of the row's files, of which the listed calls fail.
fn library_of(alloc: Global, row: &Row) -> Result<Option<MemLibrary>, AllocError> {
    let Some(failing) = numbers_in(alloc, row.field(2))? else {
        return Ok(None);
    };
    match files_in(alloc, row.field(1))? {
        Some(files) => Ok(Some(MemLibrary::make(files, failing))),
        None => Ok(None),
    }
}

/// The three parts between the bars.
fn parts_of(written: &[u8]) -> Option<(&[u8], &[u8], &[u8])> {
    let mut parts = written.split(|byte| *byte == b'|');
    match (parts.next(), parts.next(), parts.next(), parts.next()) {
        (Some(first), Some(second), Some(third), None) => Some((first, second, third)),
        _ => None,
    }
}

/// Whether the names are those between the bars.
fn are_names(names: &[Text], wanted: &[u8]) -> bool {
    let mut parts = wanted.split(|byte| *byte == b'|');
    for name in names {
        if parts.next() != Some(name.bytes()) {
            return false;
        }
    }
    parts.next().is_none()
}

/// Whether the library lists these names.
fn lists<R: Files + Print + AllocGlobal>(
    rt: &R,
    alloc: Global,
    library: &mut MemLibrary,
    wanted: &[u8],
) -> bool {
    match library.names(rt, alloc) {
        Ok(names) => are_names(&names, wanted),
        Err(_) => false,
    }
}

/// Whether the library reads so: a name, a limit and the answer, between bars.
fn reads<R: Files + Print + AllocGlobal>(
    rt: &R,
    alloc: Global,
    library: &mut MemLibrary,
    call: &[u8],
) -> Result<Option<bool>, AllocError> {
    let Some((name, limit, answer)) = parts_of(call) else {
        return Ok(None);
    };
    let (Some(limit), Some(wanted)) = (number_of(limit), reading_of(answer)) else {
        return Ok(None);
    };
    let name = Text::make(alloc, name)?;
    let got = library.read(rt, alloc, &name, limit);
    Ok(Some(is_reading(&got, wanted)))
}

/// Whether the library answers so on the call.
fn answers_call<R: Files + Print + AllocGlobal>(
    rt: &R,
    alloc: Global,
    library: &mut MemLibrary,
    call: &[u8],
) -> Result<Option<bool>, AllocError> {
    match call.strip_prefix(b"names|") {
        Some(names) => Ok(Some(lists(rt, alloc, library, names))),
        None => reads(rt, alloc, library, call),
    }
}

/// Whether the library answers so on each call in turn.
fn answers_calls<R: Files + Print + AllocGlobal>(
    rt: &R,
    alloc: Global,
    library: &mut MemLibrary,
    calls: &[Vec<u8>],
) -> Result<Option<bool>, AllocError> {
    for call in calls {
        let holds = answers_call(rt, alloc, library, call)?;
        if holds != Some(true) {
            return Ok(holds);
        }
    }
    Ok(Some(true))
}

/// Whether the row's library answers as it says.
fn answers<R: Files + Print + AllocGlobal>(
    rt: &R,
    alloc: Global,
    row: &Row,
) -> Result<Option<bool>, AllocError> {
    match library_of(alloc, row)? {
        Some(mut library) => answers_calls(rt, alloc, &mut library, row.fields_from(3)),
        None => Ok(None),
    }
}

/// The sink with the row's room, width and failing calls.
fn sink_of(alloc: Global, row: &Row) -> Result<Option<MemSink>, AllocError> {
    let (Some(capacity), Some(width)) = (row.number(1), row.number(2)) else {
        return Ok(None);
    };
    if width == 0 {
        return Ok(None);
    }
    let Some(failing) = numbers_in(alloc, row.field(3))? else {
        return Ok(None);
    };
    let sink = MemSink::make(alloc, capacity as usize, width as usize, failing)?;
    Ok(Some(sink))
}

/// Whether the sink takes a piece so: the piece, the answer, and what is written then, between bars.
fn takes_piece<R: Files + Print + AllocGlobal>(
    rt: &R,
    sink: &mut MemSink,
    call: &[u8],
) -> Option<bool> {
    let (piece, answer, after) = parts_of(call)?;
    let wanted = writing_of(answer)?;
    Some(sink.write(rt, piece) == wanted && sink.bytes() == after)
}

/// Whether the sink takes each piece in turn so.
fn takes_pieces<R: Files + Print + AllocGlobal>(
    rt: &R,
    sink: &mut MemSink,
    calls: &[Vec<u8>],
) -> Option<bool> {
    for call in calls {
        let holds = takes_piece(rt, sink, call);
        if holds != Some(true) {
            return holds;
        }
    }
    Some(true)
}

/// Whether the row's sink takes each piece as it says.
fn takes<R: Files + Print + AllocGlobal>(
    rt: &R,
    alloc: Global,
    row: &Row,
) -> Result<Option<bool>, AllocError> {
    match sink_of(alloc, row)? {
        Some(mut sink) => Ok(takes_pieces(rt, &mut sink, row.fields_from(4))),
        None => Ok(None),
    }
}

/// The answer of a writing of a whole text that is written so.
fn whole_of(written: &[u8]) -> Option<Result<(), Failed>> {
    if written == b"ok".as_slice() {
        return Some(Ok(()));
    }
    if written == b"failed".as_slice() {
        return Some(Err(Failed));
    }
    None
}

/// Whether the sink takes the whole text so.
fn takes_all<R: Files + Print + AllocGlobal>(
    rt: &R,
    alloc: Global,
    row: &Row,
) -> Result<Option<bool>, AllocError> {
    let Some(wanted) = whole_of(row.field(5)) else {
        return Ok(None);
    };
    let Some(mut sink) = sink_of(alloc, row)? else {
        return Ok(None);
    };
    let written = write_all(rt, &mut sink, row.field(4));
    Ok(Some(written == wanted && sink.bytes() == row.field(6)))
}

/// Whether standard output takes the text, and nothing behind it.
fn prints<R: Files + Print + AllocGlobal>(rt: &R, text: &[u8]) -> bool {
    let mut sink = StdSink::make();
    write_all(rt, &mut sink, text) == Ok(()) && sink.write(rt, b"") == Ok(0)
}

//! Words, and the jobs that they are.
use pure_rows::{Outcome, Row, Subject};
use pure_text::Text;
use pure_words::{Cancels, Job, WordsFault, read_words};
use std::alloc::{AllocError, Global};
use std::rt::Files;

/// The reading of words.
pub(crate) struct Words;

impl Subject for Words {
    fn outcome<R: Files + Print + AllocGlobal>(
        &self,
        _rt: &R,
        alloc: Global,
        row: &Row,
    ) -> Outcome {
        match (row.field(0), row.len()) {
            (b"words", 3) => Outcome::of_answer(is_read_as(alloc, row.field(1), row.field(2))),
            (b"nothing", 2) => Outcome::of_answer(is_job(alloc, &[], row.field(1))),
            (b"fault", 3) => fault_outcome(alloc, row.field(1), row.field(2)),
            _ => Outcome::Unreadable,
        }
    }
}

/// The words between the bars.
fn words_in(alloc: Global, written: &[u8]) -> Result<Vec<Text>, AllocError> {
    let mut words = Vec::new(alloc);
    for word in written.split(|byte| *byte == b'|') {
        words.push(Text::make(alloc, word)?)?;
    }
    Ok(words)
}

/// Adds a blank and a number in decimal.
fn push_number(alloc: Global, text: &mut Vec<u8>, number: u32) -> Result<(), AllocError> {
    let digits = number.to_string(alloc)?;
    text.push(b' ')?;
    text.extend_from_slice(digits.as_bytes())
}

/// Adds each cancellation behind a blank.
fn push_cancels(alloc: Global, text: &mut Vec<u8>, cancels: &Cancels) -> Result<(), AllocError> {
    for cancel in cancels.list() {
        let after = cancel.after.to_string(alloc)?;
        text.push(b' ')?;
        text.extend_from_slice(cancel.group.bytes())?;
        text.push(b':')?;
        text.extend_from_slice(after.as_bytes())?;
    }
    Ok(())
}

/// Adds a subcommand and the number of its workers.
fn push_workers(
    alloc: Global,
    text: &mut Vec<u8>,
    subcommand: &[u8],
    workers: u32,
) -> Result<(), AllocError> {
    text.extend_from_slice(subcommand)?;
    push_number(alloc, text, workers)
}

/// Adds a word, and a name behind a blank.
fn push_named(text: &mut Vec<u8>, word: &[u8], name: &Text) -> Result<(), AllocError> {
    text.extend_from_slice(word)?;
    text.push(b' ')?;
    text.extend_from_slice(name.bytes())
}

/// Adds a subcommand, the number of its workers and its name.
fn push_both(
    alloc: Global,
    text: &mut Vec<u8>,
    subcommand: &[u8],
    workers: u32,
    name: &Text,
) -> Result<(), AllocError> {
    push_workers(alloc, text, subcommand, workers)?;
    push_named(text, b"", name)
}

/// Adds a job as in the rows.
fn push_job(alloc: Global, text: &mut Vec<u8>, job: &Job) -> Result<(), AllocError> {
    match job {
        Job::Check {
            workers,
            fail_fast,
            cancels,
        } => {
            text.extend_from_slice(b"check")?;
            push_number(alloc, text, *workers)?;
            if *fail_fast {
                text.extend_from_slice(b" fail-fast")?;
            }
            push_cancels(alloc, text, cancels)
        }
        Job::Generate {
            workers,
            start,
            theories,
            lemmas,
        } => {
            text.extend_from_slice(b"generate")?;
            push_number(alloc, text, *workers)?;
            push_number(alloc, text, *start)?;
            push_number(alloc, text, *theories)?;
            push_number(alloc, text, *lemmas)
        }
        Job::Places { workers } => push_workers(alloc, text, b"places", *workers),
        Job::Axioms { workers, name } => push_both(alloc, text, b"axioms", *workers, name),
        Job::Graph { workers } => push_workers(alloc, text, b"graph", *workers),
        Job::Show { name } => push_named(text, b"show", name),
        Job::Replay { name } => push_named(text, b"replay", name),
        Job::Find { name } => push_named(text, b"find", name),
        Job::Try { workers, name } => push_both(alloc, text, b"try", *workers, name),
    }
}

/// Whether the fault's text is this one.
fn is_fault(alloc: Global, fault: &WordsFault, wanted: &[u8]) -> Result<bool, AllocError> {
    let said = format!(in alloc; "{fault}")?;
    Ok(said.as_bytes() == wanted)
}

/// Whether the words are this job, or this fault.
fn is_job(alloc: Global, words: &[Text], wanted: &[u8]) -> Result<bool, AllocError> {
    match read_words(alloc, words) {
        Ok(job) => {
            let mut found = Vec::new(alloc);
            push_job(alloc, &mut found, &job)?;
            Ok(found.as_slice() == wanted)
        }
        Err(fault) => is_fault(alloc, &fault, wanted),
    }
}

/// Whether the words between the bars are this job, or this fault.
fn is_read_as(alloc: Global, written: &[u8], wanted: &[u8]) -> Result<bool, AllocError> {
    is_job(alloc, &words_in(alloc, written)?, wanted)
}

/// What comes of a row that gives a fault's text.
fn fault_outcome(alloc: Global, name: &[u8], wanted: &[u8]) -> Outcome {
    match name {
        b"usage" => Outcome::of_answer(is_fault(alloc, &WordsFault::Usage, wanted)),
        b"memory" => Outcome::of_answer(is_fault(alloc, &WordsFault::Memory, wanted)),
        _ => Outcome::Unreadable,
    }
}

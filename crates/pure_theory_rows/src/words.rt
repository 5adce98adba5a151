//! The words of `theories.rows`.
use crate::begins::{begins_row, may_row, refused_row};
use crate::declarations::declare_row;
use crate::definitions::{define_row, uncertified_row};
use crate::instances::{instance_row, unsorted_row};
use crate::kept::Kept;
use crate::notation::entry_of;
use crate::promises::{back_row, handed_row, label_row, lacks_row};
use crate::stop::Stop;
use pure_rows::{Outcome, Row, Subject};
use std::alloc::Global;
use std::mem;
use std::rt::Files;

/// What a row says.
#[derive(Clone, Copy)]
enum Word {
    Declare,
    Define,
    Begins,
    Refused,
    May,
    Label,
    Handed,
    Copied,
    Lacks,
    Back,
    Uncertified,
    Instance,
    Unsorted,
}

/// The words with how many fields a row of each has.
static WORDS: [(&[u8], (usize, Word)); 13] = [
    (b"declare", (5, Word::Declare)),
    (b"define", (7, Word::Define)),
    (b"begins", (4, Word::Begins)),
    (b"refused", (4, Word::Refused)),
    (b"may", (4, Word::May)),
    (b"label", (6, Word::Label)),
    (b"handed", (3, Word::Handed)),
    (b"copied", (3, Word::Copied)),
    (b"lacks", (4, Word::Lacks)),
    (b"back", (4, Word::Back)),
    (b"uncertified", (5, Word::Uncertified)),
    (b"instance", (4, Word::Instance)),
    (b"unsorted", (4, Word::Unsorted)),
];

/// What comes of the row, whose theories are put behind those that are kept.
fn outcome_of(alloc: Global, kept: &mut Kept, row: &Row) -> Result<Outcome, Stop> {
    let (fields, word) = entry_of(&WORDS, row.field(0))?;
    if row.len() != fields {
        return Err(Stop::Unreadable);
    }
    match word {
        Word::Declare => declare_row(alloc, kept, row),
        Word::Define => define_row(alloc, kept, row),
        Word::Begins => begins_row(alloc, kept, row),
        Word::Refused => refused_row(alloc, kept, row),
        Word::May => may_row(alloc, kept, row),
        Word::Label => label_row(alloc, kept, row),
        Word::Handed => handed_row(alloc, kept, row, false),
        Word::Copied => handed_row(alloc, kept, row, true),
        Word::Lacks => lacks_row(alloc, kept, row),
        Word::Back => back_row(alloc, kept, row),
        Word::Uncertified => uncertified_row(alloc, kept, row),
        Word::Instance => instance_row(alloc, kept, row),
        Word::Unsorted => unsorted_row(alloc, kept, row),
    }
}

/// The calls that declare, begin and hand on.
#[derive(Drop)]
pub(crate) struct Theories;

impl Subject for Theories {
    fn outcome<R: Files + Print + AllocGlobal>(
        &self,
        _rt: &R,
        alloc: Global,
        row: &Row,
    ) -> Outcome {
        let mut kept = Kept::empty(alloc);
        let outcome = outcome_of(alloc, &mut kept, row);
        mem::forget(kept);
        match outcome {
            Ok(outcome) => outcome,
            Err(stop) => stop.outcome(),
        }
    }
}

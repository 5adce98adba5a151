//! Answers of calls, as rows write them.
use pure_resolve::StepFault;
use pure_rows::{Glossary, Outcome};
use pure_shown::is_answer;
use pure_theorem::Thm;
use std::alloc::Global;

/// What a call answers.
pub(crate) type Answer = Result<Thm, StepFault>;

/// The faults and their names.
const FAULTS: [(&[u8], StepFault); 4] = [
    (b"NoSubgoal", StepFault::NoSubgoal),
    (b"SubgoalsLeft", StepFault::SubgoalsLeft),
    (b"Steps", StepFault::Steps),
    (b"Big", StepFault::Big),
];

/// The fault of this name.
fn fault(name: &[u8]) -> Option<StepFault> {
    for (own, fault) in &FAULTS {
        if *own == name {
            return Some(*fault);
        }
    }
    None
}

/// What comes of a row whose call answers so, and whose last field is the text: a theorem or a fault.
pub(crate) fn compared(
    alloc: Global,
    words: &Glossary,
    found: &Answer,
    text: &[u8],
) -> Option<Outcome> {
    if let Err(StepFault::Memory) = found {
        return Some(Outcome::Memory);
    }
    let spelled = words.spelled(alloc, text).ok()?;
    let holds = is_answer(alloc, found, fault(text), &spelled)?;
    Some(Outcome::of(holds))
}

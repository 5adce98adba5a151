//! Rows of calls on goals. What a call was given and answers isn't let go, since that would be proved anew.
use crate::answers::{Answer, compared};
use crate::calls::{Call, on_goal, smashed, started, without_trivial};
use crate::texts::{term_in, theorem_in};
use pure_rows::{Glossary, Outcome, Row, Subject};
use std::alloc::Global;
use std::mem;
use std::rt::Files;

/// Calls on goals, whose rows are written in these words.
#[derive(Drop)]
pub(crate) struct Goals {
    pub(crate) words: Glossary,
}

impl Subject for Goals {
    fn outcome<R: Files + Print + AllocGlobal>(
        &self,
        _rt: &R,
        alloc: Global,
        row: &Row,
    ) -> Outcome {
        outcome_of(alloc, &self.words, row).unwrap_or(Outcome::Unreadable)
    }
}

/// The goal for the statement that the text writes.
fn of_statement(alloc: Global, words: &Glossary, text: &[u8]) -> Option<Answer> {
    let statement = term_in(alloc, words, text)?;
    let answer = started(alloc, &statement);
    mem::forget(statement);
    answer
}

/// What the call on the goal that the text shows answers.
fn of_goal(alloc: Global, words: &Glossary, call: Call<'_>, text: &[u8]) -> Option<Answer> {
    let th = theorem_in(alloc, words, text)?;
    on_goal(alloc, call, th)
}

/// The goal that the text shows, converted by the equation that the other shows.
fn of_equation(alloc: Global, words: &Glossary, text: &[u8], eq: &[u8]) -> Option<Answer> {
    let eq = theorem_in(alloc, words, eq)?;
    let answer = of_goal(alloc, words, Call::Convert(&eq), text);
    mem::forget(eq);
    answer
}

/// The theorem that the text shows, with its pairs smashed.
fn of_smash(alloc: Global, words: &Glossary, text: &[u8]) -> Option<Answer> {
    let th = theorem_in(alloc, words, text)?;
    let answer = smashed(alloc, &th);
    mem::forget(th);
    Some(answer)
}

/// The theorem that the text shows, without the pairs of equal sides.
fn of_drop_trivial(alloc: Global, words: &Glossary, text: &[u8]) -> Option<Answer> {
    let th = theorem_in(alloc, words, text)?;
    let answer = without_trivial(alloc, &th);
    mem::forget(th);
    Some(answer)
}

/// What the call of two fields besides its answer gives.
fn with_argument(alloc: Global, words: &Glossary, row: &Row) -> Option<Answer> {
    let given = row.field(1);
    match row.field(0) {
        b"prefer" => of_goal(alloc, words, Call::Prefer(row.number(2)?), given),
        b"convert" => of_equation(alloc, words, given, row.field(2)),
        _ => None,
    }
}

/// What the call of one field besides its answer gives.
fn alone(alloc: Global, words: &Glossary, row: &Row) -> Option<Answer> {
    let given = row.field(1);
    match row.field(0) {
        b"start" => of_statement(alloc, words, given),
        b"defer" => of_goal(alloc, words, Call::Defer, given),
        b"finish" => of_goal(alloc, words, Call::Finish, given),
        b"smash" => of_smash(alloc, words, given),
        b"drop_trivial" => of_drop_trivial(alloc, words, given),
        _ => None,
    }
}

/// What comes of a row whose call gives this answer, and whose last field is the text.
fn told(alloc: Global, words: &Glossary, found: Option<Answer>, text: &[u8]) -> Option<Outcome> {
    let found = found?;
    let outcome = compared(alloc, words, &found, text);
    mem::forget(found);
    outcome
}

/// What comes of the row; none where it can't be read, or its call may not be asked.
fn outcome_of(alloc: Global, words: &Glossary, row: &Row) -> Option<Outcome> {
    match row.len() {
        3 => told(alloc, words, alone(alloc, words, row), row.field(2)),
        4 => told(alloc, words, with_argument(alloc, words, row), row.field(3)),
        _ => None,
    }
}

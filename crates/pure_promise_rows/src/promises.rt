//! Rows of promises and of lemmas, and the theories in which they are. No theory is let go, since to prove that anew takes minutes.
use crate::accept::{accepted, accepted_in_pure, both_promised};
use crate::faults::fault_row;
use crate::session::shared_pure;
use crate::table::lemma_rows;
use pure_rows::{Outcome, Row, Subject, run_rows};
use pure_term::Names;
use pure_theory::{Stage, Theory};
use pure_theory_tables::shared;
use std::alloc::Global;
use std::mem;
use std::process::ExitCode;
use std::rt::Files;

/// Promises in Pure, and in a theory of the first two.
#[derive(Drop)]
struct Promises<'t> {
    names: &'t Names,
    pure: &'t Stage,
    both: &'t Stage,
}

impl Subject for Promises<'_> {
    fn outcome<R: Files + Print + AllocGlobal>(
        &self,
        _rt: &R,
        alloc: Global,
        row: &Row,
    ) -> Outcome {
        match self.holds(alloc, row) {
            Some(holds) => Outcome::of(holds),
            None => Outcome::Unreadable,
        }
    }
}

impl Promises<'_> {
    /// Whether what the row says is so; none where it can't be read.
    fn holds(&self, alloc: Global, row: &Row) -> Option<bool> {
        match row.field(0) {
            b"accept" if row.len() == 5 => accepted(alloc, self.both, row),
            b"accept_in_pure" if row.len() == 4 => {
                accepted_in_pure(alloc, self.pure, self.both, row)
            },
            b"fault" if row.len() == 4 => fault_row(alloc, self.names, row),
            b"lemmas" if row.len() >= 3 => lemma_rows(alloc, self.names, row),
            _ => None,
        }
    }
}

/// Holds each row against the calls in these theories.
fn run_in<R: Files + Print + AllocGlobal>(
    rt: &R,
    names: &Names,
    pure: &Stage,
    both: &Stage,
) -> ExitCode {
    let promises = Promises { names, pure, both };
    run_rows(rt, "promises.rows", &promises)
}

/// Holds each row against the calls in Pure and in the theory.
fn run_beside<R: Files + Print + AllocGlobal>(
    rt: &R,
    names: &Names,
    pure: &Stage,
    both: Theory,
) -> ExitCode {
    match shared(rt.alloc(), both) {
        Ok(both) => {
            let status = run_in(rt, names, pure, &both);
            mem::forget(both);
            status
        }
        Err(_) => ExitCode::FAILURE,
    }
}

/// Holds each row against the calls in this theory, which is Pure, and in one of two promises.
fn run_over<R: Files + Print + AllocGlobal>(rt: &R, names: &Names, pure: &Stage) -> ExitCode {
    match both_promised(rt.alloc()) {
        Some(both) => run_beside(rt, names, pure, both),
        None => ExitCode::FAILURE,
    }
}

/// Holds each row against the calls.
pub(crate) fn run_promises<R: Files + Print + AllocGlobal>(rt: &R, names: &Names) -> ExitCode {
    match shared_pure(rt.alloc()) {
        Some(pure) => {
            let status = run_over(rt, names, &pure);
            mem::forget(pure);
            status
        }
        None => ExitCode::FAILURE,
    }
}

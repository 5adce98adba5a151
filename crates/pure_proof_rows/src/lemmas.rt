//! Rows of lemmas of Pure, a line for each step of their proofs. What goals, theorems and Pure are made of isn't let go, since that would be proved anew.
ghost use Rattle.std.specs.Prelude.{IfSome};
ghost use Rattle.pure_unify_laws.specs.Condition.{IsUnifyContent};
ghost use Rattle.pure_resolve.specs.Uses.{MayStep};

use crate::lines::lines_of;
use crate::places::{Wanted, is_first, is_wanted, read_wanted};
use crate::steps::{Step, finished, read_step, started, stepped};
use crate::terms::lettered;
use pure_resolve::{Goal, StepFault};
use pure_rows::{Glossary, Outcome, Row, Tally, read_file, read_glossary};
use pure_theory::Theory;
use std::alloc::Global;
use std::mem;
use std::process::ExitCode;
use std::rt::Files;

/// What comes of a test that may not be read.
fn told(holds: Option<bool>) -> Outcome {
    match holds {
        Some(holds) => Outcome::of(holds),
        None => Outcome::Unreadable,
    }
}

/// What comes of a row where a call answers this fault.
fn faulted(fault: StepFault, wanted: Wanted<'_>) -> Outcome {
    match (fault, wanted) {
        (StepFault::Memory, _) => Outcome::Memory,
        (_, Wanted::Fault(own)) => Outcome::of(own == fault),
        _ => Outcome::Differs,
    }
}

/// The first goal for the statement in letters, where there is one.
fn first_goal(alloc: Global, theory: &Theory, letters: &Glossary, text: &[u8]) -> Option<Goal>
    requires { IsUnifyContent theory.now }
    ensures { IfSome result (λ new. MayStep theory.now new.thm) }
{
    let statement = lettered(alloc, letters, text)?;
    let goal = started(alloc, theory, &statement);
    mem::forget(statement);
    match goal {
        Ok(goal) => Some(goal),
        Err(_) => None,
    }
}

/// The first goal of the row's lemma, and what comes of the row.
fn begun(alloc: Global, theory: &Theory, letters: &Glossary, row: &Row) -> (Option<Goal>, Outcome)
    requires { IsUnifyContent theory.now }
    ensures { IfSome result.0 (λ new. MayStep theory.now new.thm) }
{
    match row.field(0) {
        b"lemma" if row.len() == 3 => {}
        _ => return (None, Outcome::Unreadable),
    }
    match first_goal(alloc, theory, letters, row.field(1)) {
        Some(goal) => {
            let outcome = told(is_first(alloc, letters, &goal.thm, row.field(2)));
            (Some(goal), outcome)
        }
        None => (None, Outcome::Unreadable),
    }
}

/// The goal after the step, or the goal as it was where the step is refused; and what comes of the row that wants this.
fn after(
    alloc: Global,
    theory: &Theory,
    letters: &Glossary,
    goal: Goal,
    step: Step,
    wanted: Wanted<'_>,
) -> (Goal, Outcome)
    requires content { IsUnifyContent theory.now }
    requires goal { MayStep theory.now goal.thm }
    ensures { MayStep theory.now result.0.thm }
{
    match stepped(alloc, theory, &goal, step) {
        Ok(new) => {
            mem::forget(goal);
            let outcome = told(is_wanted(alloc, letters, &new.thm, wanted));
            (new, outcome)
        }
        Err(fault) => (goal, faulted(fault, wanted)),
    }
}

/// What comes of the end of the goal's proof.
fn ended(
    alloc: Global,
    theory: &Theory,
    letters: &Glossary,
    goal: &Goal,
    wanted: Wanted<'_>,
) -> Outcome
    requires { MayStep theory.now goal.now.thm }
{
    match finished(alloc, theory, goal) {
        Ok(th) => {
            let outcome = told(is_wanted(alloc, letters, &th, wanted));
            mem::forget(th);
            outcome
        }
        Err(fault) => faulted(fault, wanted),
    }
}

/// The goal after the row, none after an end; and what comes of the row.
fn going_on(
    alloc: Global,
    theory: &Theory,
    letters: &Glossary,
    goal: Goal,
    row: &Row,
) -> (Option<Goal>, Outcome)
    requires content { IsUnifyContent theory.now }
    requires goal { MayStep theory.now goal.thm }
    ensures { IfSome result.0 (λ new. MayStep theory.now new.thm) }
{
    let Some(wanted) = read_wanted(row) else {
        return (Some(goal), Outcome::Unreadable);
    };
    if let b"end" = row.field(0) {
        let outcome = ended(alloc, theory, letters, &goal, wanted);
        mem::forget(goal);
        return (None, outcome);
    }
    match read_step(row.field(0)) {
        Some(step) => {
            let (new, outcome) = after(alloc, theory, letters, goal, step, wanted);
            (Some(new), outcome)
        }
        None => (Some(goal), Outcome::Unreadable),
    }
}

/// The goal behind the row, and what comes of the row.
fn turn(
    alloc: Global,
    theory: &Theory,
    letters: &Glossary,
    goal: Option<Goal>,
    row: &Row,
) -> (Option<Goal>, Outcome)
    requires content { IsUnifyContent theory.now }
    requires goal { IfSome goal (λ g. MayStep theory.now g.thm) }
    ensures { IfSome result.0 (λ new. MayStep theory.now new.thm) }
{
    match goal {
        Some(goal) => going_on(alloc, theory, letters, goal, row),
        None => begun(alloc, theory, letters, row),
    }
}

/// The file of the rows.
const FILE: &str = "steps.rows";

/// The goal behind the line, whose row, if it has one, is counted.
fn read_line<R: Files + Print + AllocGlobal>(
    rt: &R,
    theory: &Theory,
    letters: &Glossary,
    tally: &mut Tally<'_>,
    goal: Option<Goal>,
    line: &[u8],
) -> Option<Goal>
    requires content { IsUnifyContent theory.now }
    requires goal { IfSome goal (λ g. MayStep theory.now g.thm) }
    ensures { IfSome result (λ new. MayStep theory.now new.thm) }
{
    let alloc = rt.alloc();
    match tally.next_row(rt, alloc, line) {
        Some(row) => {
            let (next, outcome) = turn(alloc, theory, letters, goal, &row);
            tally.add(rt, outcome);
            next
        }
        None => goal,
    }
}

/// The goal behind the last of the lines.
fn read_lines<R: Files + Print + AllocGlobal>(
    rt: &R,
    theory: &Theory,
    letters: &Glossary,
    tally: &mut Tally<'_>,
    lines: &[&[u8]],
) -> Option<Goal>
    requires { IsUnifyContent theory.now }
{
    let mut goal = None;
    for line in lines {
        goal = read_line(rt, theory, letters, tally, goal, line);
    }
    goal
}

/// Holds each row against the steps in the theory. A lemma without its end is a row that can't be read.
fn run_in<R: Files + Print + AllocGlobal>(
    rt: &R,
    theory: &Theory,
    letters: &Glossary,
    lines: &[&[u8]],
) -> ExitCode
    requires { IsUnifyContent theory.now }
{
    let mut tally = Tally::begin(FILE);
    let open = read_lines(rt, theory, letters, &mut tally, lines);
    if open.is_some() {
        tally.add(rt, Outcome::Unreadable);
    }
    mem::forget(open);
    tally.end(rt)
}

/// Holds each row against the steps in Pure.
fn run_in_pure<R: Files + Print + AllocGlobal>(
    rt: &R,
    letters: &Glossary,
    lines: &[&[u8]],
) -> ExitCode {
    match Theory::pure(rt.alloc()) {
        Ok(pure) => {
            let status = run_in(rt, &pure, letters, lines);
            mem::forget(pure);
            status
        }
        Err(_) => ExitCode::FAILURE,
    }
}

/// Holds each row of the text against the steps, whose propositions are in these letters.
fn run_text<R: Files + Print + AllocGlobal>(rt: &R, letters: &Glossary, text: &[u8]) -> ExitCode {
    match lines_of(rt.alloc(), text) {
        Ok(lines) => run_in_pure(rt, letters, &lines),
        Err(_) => ExitCode::FAILURE,
    }
}

/// Holds each row against the steps.
pub(crate) fn run_steps<R: Files + Print + AllocGlobal>(rt: &R) -> ExitCode {
    let Some(letters) = read_glossary(rt, "steps.letters") else {
        return ExitCode::FAILURE;
    };
    match read_file(rt, FILE) {
        Some(text) => run_text(rt, &letters, &text),
        None => ExitCode::FAILURE,
    }
}

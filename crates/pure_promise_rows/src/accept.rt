//! Which theorems fulfil promises, and why others don't.
ghost use Rattle.std.specs.Prelude.{IfSome};
ghost use Rattle.pure_logic.specs.Derivable.{IsDerivable};
ghost use Rattle.pure_promise_rows.specs.Earlier.{AreEarlier};

use crate::lemmas::made;
use crate::names::{cut, label_at, name_at};
use crate::paired::paired;
use crate::session::{Statement, promised, proposition, pure_theory};
use crate::theorems::{assumed, assumed_resting, resting, resting_on_both, trivial};
use pure_promise::{AcceptFault, Promise};
use pure_rows::{Row, number_of};
use pure_term::Label;
use pure_theorem::Thm;
use pure_theory::{Cthm, Stage, Theory};
use pure_theory_tables::Decl;
use std::alloc::Global;
use std::mem;
use std::sync::Arc;

/// The statement that the text writes.
fn read_statement(text: &[u8]) -> Option<Statement> {
    match text {
        b"?A" => Some(Statement::Variable),
        b"?A ==> ?A" => Some(Statement::Implication),
        _ => None,
    }
}

/// A theorem without pairs: `?A ==> ?A`; `?A` from itself, or that resting on a promise; and what one promise or two state.
#[derive(Clone, Copy)]
enum Drawn {
    Trivial,
    Assumed,
    AssumedResting(u32),
    Resting(u32),
    RestingOnBoth(u32, u32),
}

/// The theorem of this word and the places behind it.
fn read_drawn(text: &[u8]) -> Option<Drawn> {
    let (word, places) = cut(text, b' ');
    let (first, second) = cut(places, b' ');
    match word {
        b"trivial" if places.is_empty() => Some(Drawn::Trivial),
        b"assumed" if places.is_empty() => Some(Drawn::Assumed),
        b"assumed" => Some(Drawn::AssumedResting(number_of(places)?)),
        b"resting" if second.is_empty() => Some(Drawn::Resting(number_of(first)?)),
        b"resting" => Some(Drawn::RestingOnBoth(number_of(first)?, number_of(second)?)),
        _ => None,
    }
}

/// The theorem itself.
fn theorem_drawn(alloc: Global, theory: &Theory, which: Drawn) -> Option<Thm>
    ensures { IfSome result (IsDerivable theory.now) }
{
    match which {
        Drawn::Trivial => trivial(alloc, theory),
        Drawn::Assumed => assumed(alloc, theory),
        Drawn::AssumedResting(place) => assumed_resting(alloc, theory, place),
        Drawn::Resting(place) => resting(alloc, theory, place),
        Drawn::RestingOnBoth(first, second) => resting_on_both(alloc, theory, first, second),
    }
}

/// The theorem under a pair.
fn drawn_under_pair(alloc: Global, theory: &Theory, which: Drawn) -> Option<Thm>
    ensures { IfSome result (IsDerivable theory.now) }
{
    let th = theorem_drawn(alloc, theory, which)?;
    let answer = paired(alloc, theory, &th);
    mem::forget(th);
    answer
}

/// The theorem in its theory.
fn plain_theorem(alloc: Global, stage: &Stage, which: Drawn) -> Option<Cthm> {
    let th = theorem_drawn(alloc, &**stage, which)?;
    made(alloc, stage, th)
}

/// The theorem under a pair, in its theory.
fn paired_theorem(alloc: Global, stage: &Stage, which: Drawn) -> Option<Cthm> {
    let th = drawn_under_pair(alloc, &**stage, which)?;
    made(alloc, stage, th)
}

/// The theorem that the text writes, in its theory: a word with places, behind `paired` where it is under a pair.
fn theorem(alloc: Global, stage: &Stage, text: &[u8]) -> Option<Cthm> {
    match cut(text, b' ') {
        (b"paired", unpaired) => paired_theorem(alloc, stage, read_drawn(unpaired)?),
        _ => plain_theorem(alloc, stage, read_drawn(text)?),
    }
}

/// What a promise answers to a theorem, with the promise by its place that may not be rested on.
#[derive(Clone, Copy)]
enum Answer {
    Taken,
    BadTheory,
    BadProp,
    OpenHyps,
    OpenPairs,
    BadDependency(u32),
}

/// The answers by their words, but for what has a place.
const ANSWERS: [(&[u8], Answer); 5] = [
    (b"taken", Answer::Taken),
    (b"BadTheory", Answer::BadTheory),
    (b"BadProp", Answer::BadProp),
    (b"OpenHyps", Answer::OpenHyps),
    (b"OpenPairs", Answer::OpenPairs),
];

/// The answer that the text writes.
fn read_answer(text: &[u8]) -> Option<Answer> {
    for (word, answer) in &ANSWERS {
        if *word == text {
            return Some(*answer);
        }
    }
    match cut(text, b' ') {
        (b"BadDependency", place) => Some(Answer::BadDependency(number_of(place)?)),
        _ => None,
    }
}

/// Whether the declaration is the first promise, which the theorem's theory has and the promise's lacks.
fn is_first_promise(declaration: &Decl) -> bool {
    *declaration
        == Decl::Promise {
            name: name_at(0),
            label: label_at(0),
        }
}

/// Whether the fault is the one that is wanted.
fn is_fault(fault: &AcceptFault, wanted: Answer) -> bool {
    match (fault, wanted) {
        (AcceptFault::BadTheory { declaration }, Answer::BadTheory) => {
            is_first_promise(declaration)
        }
        (AcceptFault::BadProp, Answer::BadProp) => true,
        (AcceptFault::OpenHyps, Answer::OpenHyps) => true,
        (AcceptFault::OpenPairs, Answer::OpenPairs) => true,
        (AcceptFault::BadDependency { label }, Answer::BadDependency(place)) => {
            *label == label_at(place)
        }
        _ => false,
    }
}

/// Whether the answer is the one that is wanted.
fn is_wanted(answer: &Result<(), AcceptFault>, wanted: Answer) -> bool {
    match (answer, wanted) {
        (Ok(_), Answer::Taken) => true,
        (Err(fault), wanted) => is_fault(fault, wanted),
        _ => false,
    }
}

/// The promise of this number in the theory.
fn promise(alloc: Global, stage: &Stage, number: u32, statement: Statement) -> Option<Promise> {
    let prop = proposition(alloc, statement).ok()?;
    let stage = Arc::try_clone(stage).ok()?;
    Some(Promise {
        number,
        label: label_at(2),
        stage,
        prop,
    })
}

/// Whether the theorem that the text writes is answered so for the promise, where these were forked.
fn is_answered(
    alloc: Global,
    promise: &Promise,
    forked: &[Label],
    stage: &Stage,
    text: &[u8],
    wanted: Answer,
) -> Option<bool> {
    let theorem = theorem(alloc, stage, text)?;
    let answer = is_wanted(&promise.accept(forked, &theorem), wanted);
    mem::forget(theorem);
    Some(answer)
}

/// Whether the row's theorem of the theory is answered so, for its promise in the theory. Of the first two promises the second was forked first.
pub(crate) fn accepted(alloc: Global, stage: &Stage, row: &Row) -> Option<bool> {
    let wanted = read_answer(row.field(4))?;
    let statement = read_statement(row.field(2))?;
    let promise = promise(alloc, stage, row.number(1)?, statement)?;
    let forked = [label_at(1), label_at(0), label_at(2)];
    let answer = is_answered(alloc, &promise, &forked, stage, row.field(3), wanted);
    mem::forget(promise);
    answer
}

/// Whether the row's theorem of the theory is answered so, for its promise in Pure.
pub(crate) fn accepted_in_pure(
    alloc: Global,
    pure: &Stage,
    stage: &Stage,
    row: &Row,
) -> Option<bool> {
    let wanted = read_answer(row.field(3))?;
    let statement = read_statement(row.field(1))?;
    let promise = promise(alloc, pure, 0, statement)?;
    let answer = is_answered(alloc, &promise, &[], stage, row.field(2), wanted);
    mem::forget(promise);
    answer
}

/// The theory with the first promise, and the second promise too.
fn with_second(alloc: Global, first: Theory) -> Option<Theory>
    requires { AreEarlier 1 first.declarations }
{
    let both = promised(alloc, &first, 1, Statement::Variable);
    mem::forget(first);
    both
}

/// Pure with the first two promises.
pub(crate) fn both_promised(alloc: Global) -> Option<Theory> {
    let pure = pure_theory(alloc)?;
    let first = promised(alloc, &pure, 0, Statement::Variable);
    mem::forget(pure);
    with_second(alloc, first?)
}

//! Lemmas by letters: `f` for one at fault, `c` for a cancelled one, `o` for `?A ==> ?A`, proved without promises, `r` for `?A`, proved by the lemma before, and `b` for `?A`, proved by both lemmas before.
ghost use Rattle.std.specs.Prelude.{◌≡◌, ◌+◌, ◌≤◌, length, IfSome};
ghost use Rattle.pure_logic.specs.Derivable.{IsDerivable};
ghost use Rattle.pure_promise_rows.specs.Earlier.{AreEarlier};

use crate::names::{label_at, name_at};
use crate::session::{Statement, promised, shared_proposition, shared_pure};
use crate::theorems::{resting, resting_on_both, trivial};
use pure_goal_steps::StepFault;
use pure_promise::{Entry, Own};
use pure_theorem::Thm;
use pure_theory::{Cthm, Stage, Theory};
use pure_theory_tables::shared;
use std::alloc::Global;
use std::mem;
use std::sync::Arc;

/// What becomes of a lemma.
#[derive(Clone, Copy)]
enum Become {
    Failed,
    Cancelled,
    Trivial,
    Resting,
    RestingOnBoth,
}

/// What becomes of the lemma of this letter.
fn read_become(letter: u8) -> Option<Become> {
    match letter {
        b'f' => Some(Become::Failed),
        b'c' => Some(Become::Cancelled),
        b'o' => Some(Become::Trivial),
        b'r' => Some(Become::Resting),
        b'b' => Some(Become::RestingOnBoth),
        _ => None,
    }
}

/// What the lemma states.
fn statement_of(lemma: Become) -> Statement {
    match lemma {
        Become::Trivial => Statement::Implication,
        _ => Statement::Variable,
    }
}

/// The theorem in its theory.
pub(crate) fn made(alloc: Global, stage: &Stage, th: Thm) -> Option<Cthm>
    requires { IsDerivable stage.now.value th }
    ensures { IfSome result (λ made. made ≡ record { content = stage.now.value; theorem = th }) }
{
    let Ok(th) = shared(alloc, th) else {
        return None;
    };
    let Ok(own) = Arc::try_clone(stage) else {
        mem::forget(th);
        return None;
    };
    Some(Cthm::make(own, th))
}

/// `?A ==> ?A` in its theory.
fn trivial_in(alloc: Global, stage: &Stage) -> Option<Cthm> {
    let th = trivial(alloc, &**stage)?;
    made(alloc, stage, th)
}

/// What the promise at the place states, in its theory.
fn resting_in(alloc: Global, stage: &Stage, place: u32) -> Option<Cthm> {
    let th = resting(alloc, &**stage, place)?;
    made(alloc, stage, th)
}

/// `?A` by the promises at both places, in its theory.
fn resting_on_both_in(alloc: Global, stage: &Stage, first: u32, second: u32) -> Option<Cthm> {
    let th = resting_on_both(alloc, &**stage, first, second)?;
    made(alloc, stage, th)
}

/// A proof that came to the theorem.
fn proved(theorem: Cthm) -> Own {
    Own::Proved { result: theorem }
}

/// What became of the lemma at the place.
fn own(alloc: Global, stage: &Stage, place: u32, lemma: Become) -> Option<Own> {
    let before = place.saturating_sub(1);
    match lemma {
        Become::Failed => Some(Own::Fault {
            step: 1,
            fault: StepFault::NoHypothesis,
        }),
        Become::Cancelled => Some(Own::Cancelled),
        Become::Trivial => Some(proved(trivial_in(alloc, stage)?)),
        Become::Resting => Some(proved(resting_in(alloc, stage, before)?)),
        Become::RestingOnBoth => {
            let first = place.saturating_sub(2);
            Some(proved(resting_on_both_in(alloc, stage, first, before)?))
        }
    }
}

/// The lemma at the place.
fn lemma(alloc: Global, stage: &Stage, place: u32, lemma: Become) -> Option<Entry> {
    let prop = shared_proposition(alloc, statement_of(lemma)).ok()?;
    let own = own(alloc, stage, place, lemma)?;
    Some(Entry {
        label: label_at(place),
        name: name_at(place),
        prop,
        own,
    })
}

/// The theory with the promise of the lemma at the place more, shared.
fn grown(alloc: Global, stage: &Stage, place: u32, lemma: Become) -> Option<Stage>
    requires { AreEarlier place stage.now.value.declarations }
    ensures { IfSome result (λ more. AreEarlier (place + 1) more.value.declarations) }
{
    let more = promised(alloc, &**stage, place, statement_of(lemma))?;
    match shared(alloc, more) {
        Ok(more) => Some(more),
        Err(_) => None,
    }
}

/// Puts the lemma behind the others.
fn push(lemmas: &mut Vec<Entry>, lemma: Entry) -> Option<()> {
    match lemmas.push(lemma) {
        Ok(_) => Some(()),
        Err(failed) => {
            mem::forget(failed);
            None
        }
    }
}

/// Puts the lemma at the place behind the others; the theory behind it.
fn turn(
    alloc: Global,
    lemmas: &mut Vec<Entry>,
    stage: &Stage,
    place: u32,
    letter: u8,
) -> Option<Stage>
    requires { AreEarlier place stage.now.value.declarations }
    ensures { IfSome result (λ more. AreEarlier (place + 1) more.value.declarations) }
{
    let which = read_become(letter)?;
    push(lemmas, lemma(alloc, stage, place, which)?)?;
    grown(alloc, stage, place, which)
}

/// Puts the lemmas from the place on behind the others. None where a letter says none, or there is no memory.
fn push_from(
    alloc: Global,
    lemmas: &mut Vec<Entry>,
    stage: &Stage,
    place: u32,
    letters: &[u8],
) -> Option<()>
    requires earlier { AreEarlier place stage.now.value.declarations }
    requires few { place + length letters.now ≤ 8 }
{
    let Some((letter, rest)) = letters.split_first() else {
        return Some(());
    };
    let more = turn(alloc, lemmas, stage, place, *letter)?;
    let pushed = push_from(alloc, lemmas, &more, place + 1, rest);
    mem::forget(more);
    pushed
}

/// Puts the lemmas that the letters say, at most eight, behind none.
pub(crate) fn push_lemmas(alloc: Global, lemmas: &mut Vec<Entry>, letters: &[u8]) -> Option<()> {
    if letters.len() > 8 {
        return None;
    }
    let pure = shared_pure(alloc)?;
    let pushed = push_from(alloc, lemmas, &pure, 0, letters);
    mem::forget(pure);
    pushed
}

//! Whether lemmas may be joined.
ghost use Rattle.std.specs.Prelude.{◌≡◌, [], IsTrue, map};
ghost use Rattle.pure_text.specs.Lists.{IsIn, Each};
ghost use Rattle.pure_promise_fates.specs.Entries.{AreEntries};
ghost use Rattle.pure_promise.specs.Seen.{reported};
ghost use Rattle.pure_promise.specs.Joining.{IsClosed, IsGrounded, MayJoin};
ghost use Rattle.pure_promise_rows.specs.Grounds.{IsAlone, IsStatedIn, IsOfTheory, IsGroundedBy, IsHeld};

use crate::order::{are_in_order, rests};
use pure_promise::{Entry, Own};
use pure_term::{Label, Term};
use pure_theorem::{Thm, are_same};
use pure_theory::{Cthm, Theory};

/// Whether the theorem is this statement, without hypotheses and pairs.
fn is_alone(th: &Thm, prop: &Term) -> bool
    ensures { IsTrue result → IsAlone th.now prop.now }
{
    if !th.hyps.as_slice().is_empty() {
        return false;
    }
    if !th.pairs.as_slice().is_empty() {
        return false;
    }
    are_same(&th.prop, prop)
}

/// Whether the lemma's theorem is its statement.
fn is_closed(lemma: &Entry) -> bool
    ensures { IsTrue result → IsClosed lemma.now }
{
    match &lemma.own {
        Own::Proved { result: proof } => is_alone(proof.thm(), &*lemma.prop),
        Own::Fault { .. } => true,
        Own::Cancelled => true,
    }
}

/// Whether a promise with the lemma's label states there what the lemma does.
fn is_stated_in(theory: &Theory, lemma: &Entry) -> bool
    ensures { IsTrue result → IsStatedIn theory.now lemma.now }
{
    theory.content_is_sound();
    match theory.promise_prop(lemma.label) {
        Some(prop) => are_same(prop, &*lemma.prop),
        None => true,
    }
}

/// The theory of a theorem.
fn theory_of(proof: &Cthm) -> &Theory
    ensures { result.now ≡ proof.now.content }
{
    &**proof.stage()
}

/// Whether the theory of the lemma's theorem is below the theory.
fn is_of_theory(theory: &Theory, lemma: &Entry) -> bool
    ensures { IsTrue result → IsOfTheory theory.now lemma.now }
{
    match &lemma.own {
        Own::Proved { result: proof } => theory_of(proof).below(theory),
        Own::Fault { .. } => true,
        Own::Cancelled => true,
    }
}

/// Whether the other lemma is what the lemma's theorem takes it for.
fn is_grounded_by(lemma: &Entry, other: &Entry) -> bool
    ensures { IsTrue result → IsGroundedBy lemma.now other.now }
{
    match &lemma.own {
        Own::Proved { result: proof } => {
            let theory = theory_of(proof);
            is_stated_in(theory, other) && is_of_theory(theory, other)
        }
        Own::Fault { .. } => true,
        Own::Cancelled => true,
    }
}

/// Whether the label is one of these.
fn stands_in(labels: &[Label], label: Label) -> bool
    ensures { IsIn label labels.now → IsTrue result }
{
    for other in labels {
        if *other == label {
            return true;
        }
    }
    false
}

/// Whether the other lemma is what the lemma's theorem takes it for, where that rests on it.
fn is_held(lemma: &Entry, other: &Entry) -> bool
    ensures { IsTrue result → IsHeld lemma.now other.now }
{
    if !stands_in(rests(lemma), other.label) {
        return true;
    }
    is_grounded_by(lemma, other)
}

/// Whether each of the lemmas on which the lemma's theorem rests is what that takes it for.
fn is_grounded(lemmas: &[Entry], lemma: &Entry) -> bool
    ensures { IsTrue result → IsGrounded lemmas.now lemma.now }
{
    for other in lemmas {
        if !is_held(lemma, other) {
            return false;
        }
    }
    true
}

/// Whether each theorem is its lemma's statement, and takes other lemmas for what they are.
fn are_grounded(lemmas: &[Entry]) -> bool
    ensures closed { IsTrue result → Each IsClosed lemmas.now }
    ensures grounded { IsTrue result → Each (IsGrounded lemmas.now) lemmas.now }
{
    for lemma in lemmas {
        if !is_closed(lemma) || !is_grounded(lemmas, lemma) {
            return false;
        }
    }
    true
}

/// Whether the lemmas may be joined.
pub(crate) fn may_join(lemmas: &[Entry]) -> bool
    ensures { IsTrue result → MayJoin lemmas.now }
{
    are_in_order(lemmas) && are_grounded(lemmas)
}

//! Whether lemmas are in order.
ghost use Rattle.std.specs.Prelude.{◌≡◌, IsTrue, map};
ghost use Rattle.std.specs.declared.cmp.Ordering.TheVariants.{Less};
ghost use Rattle.pure_text.specs.Lists.{IsIn, Each};
ghost use Rattle.pure_theorem.specs.Sets.{label_cmp};
ghost use Rattle.pure_promise_fates.specs.Entries as fates;
ghost use Rattle.pure_promise_fates.specs.Entries.{AreEntries};
ghost use Rattle.pure_promise.specs.Entries.{plain};
ghost use Rattle.pure_promise.specs.Seen.{reported, seen};
ghost use Rattle.pure_promise_rows.specs.Grounds.{IsRestingOn};

use pure_promise::{Entry, Own};
use pure_term::Label;

/// Whether the first label comes before the second.
fn is_before(first: Label, second: Label) -> bool
    ensures { IsTrue result → label_cmp first second ≡ Less }
{
    match first.theory.cmp(&second.theory).then(
        first
            .command
            .cmp(&second.command)
            .then(first.part.cmp(&second.part)),
    ) {
        std::cmp::Ordering::Less => true,
        _ => false,
    }
}

/// Whether each of the lemmas comes before the label.
fn are_before(lemmas: &[Entry], label: Label) -> bool
    ensures { IsTrue result → Each (λ e. label_cmp e.label label ≡ Less) (map reported lemmas.now) }
{
    for lemma in lemmas {
        if !is_before(lemma.label, label) {
            return false;
        }
    }
    true
}

/// Whether one of the lemmas has the label.
fn has(lemmas: &[Entry], label: Label) -> bool
    ensures { IsTrue result → IsIn label (map fates.Entry.label (map reported lemmas.now)) }
{
    for lemma in lemmas {
        if lemma.label == label {
            return true;
        }
    }
    false
}

/// Whether each of the labels is that of one of the lemmas.
fn has_all(lemmas: &[Entry], labels: &[Label]) -> bool
    ensures { IsTrue result → Each (λ k. IsIn k (map fates.Entry.label (map reported lemmas.now))) labels.now }
{
    for label in labels {
        if !has(lemmas, *label) {
            return false;
        }
    }
    true
}

/// The promises on which the lemma's theorem rests, or none.
pub(crate) fn rests(lemma: &Entry) -> &[Label]
    ensures { IsRestingOn lemma.now result.now }
{
    match &lemma.own {
        Own::Proved { result: proof } => proof.thm().rests.as_slice(),
        Own::Fault { .. } => &[],
        Own::Cancelled => &[],
    }
}

/// Whether the labels ascend, and each lemma rests on earlier ones alone.
pub(crate) fn are_in_order(lemmas: &[Entry]) -> bool
    ensures { IsTrue result → AreEntries (map reported lemmas.now) }
{
    for place in 0..lemmas.len() {
        let lemma = &lemmas[place];
        let earlier = &lemmas[..place];
        if !are_before(earlier, lemma.label) || !has_all(earlier, rests(lemma)) {
            return false;
        }
    }
    true
}

/// The same, as rows ask it.
pub(crate) fn are_listed(lemmas: &[Entry]) -> bool
    ensures { IsTrue result → AreEntries (map plain (seen lemmas.now)) }
{
    are_in_order(lemmas)
}

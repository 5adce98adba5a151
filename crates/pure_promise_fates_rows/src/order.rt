//! Whether lemmas are in order, so that fates may be asked of them.
ghost use Rattle.std.specs.Prelude.{◌≡◌, IsTrue, map};
ghost use Rattle.std.specs.declared.cmp.Ordering.TheVariants.{Less};
ghost use Rattle.pure_text.specs.Lists.{IsIn, Each};
ghost use Rattle.pure_theorem.specs.Sets.{label_cmp};
ghost use Rattle.pure_promise_fates.specs.Entries.{Entry, AreEntries};
ghost use Rattle.pure_promise_fates_rows.specs.Given.{seen_lemma};

use crate::lemma::Lemma;
use pure_typ::Label;

/// Whether the first label comes before the second.
fn is_before(first: Label, second: Label) -> bool
    ensures { IsTrue result → label_cmp first second ≡ Less }
{
    match first.theory.cmp(&second.theory).then(
        first
            .command
            .cmp(&second.command)
            .then(first.part.cmp(&second.part)),
    ) {
        std::cmp::Ordering::Less => true,
        _ => false,
    }
}

/// Whether each of the lemmas comes before the label.
fn are_before(lemmas: &[Lemma], label: Label) -> bool
    ensures { IsTrue result → Each (λ e. label_cmp e.label label ≡ Less) (map seen_lemma lemmas.now) }
{
    for lemma in lemmas {
        if !is_before(lemma.label, label) {
            return false;
        }
    }
    true
}

/// Whether one of the lemmas has the label.
fn has(lemmas: &[Lemma], label: Label) -> bool
    ensures { IsTrue result → IsIn label (map Entry.label (map seen_lemma lemmas.now)) }
{
    for lemma in lemmas {
        if lemma.label == label {
            return true;
        }
    }
    false
}

/// Whether each of the labels is that of one of the lemmas.
fn has_all(lemmas: &[Lemma], labels: &[Label]) -> bool
    ensures { IsTrue result → Each (λ k. IsIn k (map Entry.label (map seen_lemma lemmas.now))) labels.now }
{
    for label in labels {
        if !has(lemmas, *label) {
            return false;
        }
    }
    true
}

/// Whether the labels ascend, and each lemma rests on earlier ones alone.
pub(crate) fn are_in_order(lemmas: &[Lemma]) -> bool
    ensures { IsTrue result → AreEntries (map seen_lemma lemmas.now) }
{
    for place in 0..lemmas.len() {
        let lemma = &lemmas[place];
        let earlier = &lemmas[..place];
        if !are_before(earlier, lemma.label) || !has_all(earlier, &lemma.rests) {
            return false;
        }
    }
    true
}

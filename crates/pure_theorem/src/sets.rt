//! Sets of hypotheses and of promises.
ghost use Rattle.std.specs.Prelude.{◌≡◌, ◌++◌, [], ◌∷◌, true, IfOk, OnOk};
ghost use Rattle.std.specs.Set.{sorted_merge};
ghost use Rattle.pure_definitions.specs.Models.Comparison.{term_cmp};
ghost use Rattle.pure_logic.specs.Tree.{without};
ghost use Rattle.pure_theorem.specs.Sets.{label_cmp, IsTermSet, IsLabelSet, IsSetOf};

use crate::lists::extend_terms;
use crate::same::are_same;
use pure_term::{Label, Term};
use std::alloc::{AllocError, Global};
use std::cmp::Ordering;

/// The order of two labels: by theory, then by command, then by part.
pub fn compare_labels(left: &Label, right: &Label) -> Ordering
    ensures { result ≡ label_cmp left.now right.now }
{
    left.theory.cmp(&right.theory).then(
        left.command
            .cmp(&right.command)
            .then(left.part.cmp(&right.part)),
    )
}

/// The union of two sets of terms.
pub fn united_terms(alloc: Global, left: &[Term], right: &[Term]) -> Result<Vec<Term>, AllocError>
    requires left_set { IsTermSet left.now }
    requires right_set { IsTermSet right.now }
    ensures { IfOk result (λ all. IsSetOf term_cmp (left.now ++ right.now) all.items) }
{
    let all = merged_terms(alloc, left, right)?;
    Ok(all)
}

/// Two ascending lists of terms, merged.
fn merged_terms(alloc: Global, left: &[Term], right: &[Term]) -> Result<Vec<Term>, AllocError>
    ensures { IfOk result (λ all. all.items ≡ sorted_merge term_cmp true left.now right.now) }
{
    let mut all = Vec::new(alloc);
    let (mut i, mut j) = (0, 0);
    while i < left.len() && j < right.len() {
        let (first, second) = (&left[i], &right[j]);
        match first.cmp(second) {
            Ordering::Less => {
                all.push(first.copy(alloc)?)?;
                i += 1;
            }
            Ordering::Greater => {
                all.push(second.copy(alloc)?)?;
                j += 1;
            }
            Ordering::Equal => {
                all.push(first.copy(alloc)?)?;
                i += 1;
                j += 1;
            }
        }
    }
    extend_terms(alloc, &mut all, &left[i..])?;
    extend_terms(alloc, &mut all, &right[j..])?;
    Ok(all)
}

/// The union of two sets of labels.
pub fn united_labels(
    alloc: Global,
    left: &[Label],
    right: &[Label],
) -> Result<Vec<Label>, AllocError>
    requires left_set { IsLabelSet left.now }
    requires right_set { IsLabelSet right.now }
    ensures { IfOk result (λ all. IsSetOf label_cmp (left.now ++ right.now) all.items) }
{
    let all = merged_labels(alloc, left, right)?;
    Ok(all)
}

/// Two ascending lists of labels, merged.
fn merged_labels(alloc: Global, left: &[Label], right: &[Label]) -> Result<Vec<Label>, AllocError>
    ensures { IfOk result (λ all. all.items ≡ sorted_merge label_cmp true left.now right.now) }
{
    let mut all = Vec::new(alloc);
    let (mut i, mut j) = (0, 0);
    while i < left.len() && j < right.len() {
        let (first, second) = (left[i], right[j]);
        match compare_labels(&first, &second) {
            Ordering::Less => {
                all.push(first)?;
                i += 1;
            }
            Ordering::Greater => {
                all.push(second)?;
                j += 1;
            }
            Ordering::Equal => {
                all.push(first)?;
                i += 1;
                j += 1;
            }
        }
    }
    all.extend_from_slice(&left[i..])?;
    all.extend_from_slice(&right[j..])?;
    Ok(all)
}

/// Puts the hypothesis behind the others, unless it is this term.
fn keep_other(alloc: Global, kept: &mut Vec<Term>, a: &Term, hyp: &Term) -> Result<(), AllocError>
    ensures { OnOk result (kept.new.items ≡ kept.old.items ++ without a.now (hyp.now ∷ [])) }
{
    if are_same(a, hyp) {
        return Ok(());
    }
    kept.push(hyp.copy(alloc)?)?;
    Ok(())
}

/// The hypotheses without this term.
pub fn without(alloc: Global, a: &Term, hyps: &[Term]) -> Result<Vec<Term>, AllocError>
    ensures value { IfOk result (λ kept. kept.items ≡ without a.now hyps.now) }
    ensures set { IsTermSet hyps.now → IfOk result (λ kept. IsTermSet kept.items) }
{
    let mut kept = Vec::new(alloc);
    for hyp in hyps {
        keep_other(alloc, &mut kept, a, hyp)?;
    }
    Ok(kept)
}

/// The set of the terms of a list.
pub fn set_of_terms(terms: Vec<Term>) -> Result<Vec<Term>, AllocError>
    ensures { IfOk result (λ all. IsSetOf term_cmp terms.items all.items) }
{
    let mut all = terms;
    all.sort()?;
    all.dedup();
    Ok(all)
}

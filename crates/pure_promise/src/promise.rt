//! Promises, and whether theorems fulfil them.
ghost use Rattle.std.specs.Prelude.{◌≡◌, ◌↔◌, [], IsTrue, MatchOption, MatchResult, take};
ghost use Rattle.pure_text.specs.Lists.{IsIn, Each};
ghost use Rattle.pure_promise.specs.Accepting.{IsForkedBefore, IsFirstUnforked, Fulfils, IsRefusal};

use pure_method::theory::{Cthm, Decl, Stage, Theory};
use pure_term::{Label, Term};
use pure_theorem::{Thm, are_same};

/// A lemma's promise: its number among all that were forked, its label, the theory that stood before it, and its statement.
#[derive(Drop)]
pub struct Promise {
    pub number: u32,
    pub label: Label,
    pub stage: Stage,
    pub prop: Term,
}

/// Why a theorem doesn't fulfil a promise.
#[derive(Clone, Copy, Debug, PartialEq, Eq)]
pub enum AcceptFault {
    /// The first declaration of the theorem's theory that the promise's lacks.
    BadTheory { declaration: Decl },
    /// It states something else.
    BadProp,
    /// It has hypotheses.
    OpenHyps,
    /// It has pairs.
    OpenPairs,
    /// The first promise on which it rests that wasn't forked before.
    BadDependency { label: Label },
}

/// Whether the label is that of one of these.
fn stands_in(labels: &[Label], label: Label) -> bool
    ensures { IsTrue result ↔ IsIn label labels.now }
{
    for other in labels {
        if *other == label {
            return true;
        }
    }
    false
}

/// The labels of so many promises that were forked first.
fn first_forked(forked: &[Label], number: u32) -> &[Label]
    ensures { result.now ≡ take number forked.now }
{
    if (number as usize) < forked.len() {
        &forked[..number as usize]
    } else {
        forked
    }
}

/// The first of the labels that isn't one of the so many that were forked first.
fn first_unforked(forked: &[Label], number: u32, labels: &[Label]) -> Option<Label>
    ensures { MatchOption result (Each (IsForkedBefore forked.now number) labels.now) (IsFirstUnforked forked.now number labels.now) }
{
    let earlier = first_forked(forked, number);
    for label in labels {
        if !stands_in(earlier, *label) {
            return Some(*label);
        }
    }
    None
}

/// The theory of a theorem.
fn theory_of(proof: &Cthm) -> &Theory
    ensures { result.now ≡ proof.now.content }
{
    &**proof.stage()
}

/// Whether the theorem states this.
fn is_of_prop(theorem: &Thm, prop: &Term) -> bool
    ensures { IsTrue result ↔ (theorem.now.prop ≡ prop.now) }
{
    are_same(&theorem.prop, prop)
}

/// Whether the theorem has no hypotheses.
fn is_without_hyps(theorem: &Thm) -> bool
    ensures { IsTrue result ↔ (theorem.now.hyps ≡ []) }
{
    theorem.hyps.as_slice().is_empty()
}

/// Whether the theorem has no pairs.
fn is_without_pairs(theorem: &Thm) -> bool
    ensures { IsTrue result ↔ (theorem.now.pairs ≡ []) }
{
    theorem.pairs.as_slice().is_empty()
}

/// The first promise on which the theorem rests that isn't one of the so many that were forked first.
fn first_dependency(forked: &[Label], number: u32, theorem: &Thm) -> Option<Label>
    ensures { MatchOption result (Each (IsForkedBefore forked.now number) theorem.now.rests) (IsFirstUnforked forked.now number theorem.now.rests) }
{
    match first_unforked(forked, number, theorem.rests.as_slice()) {
        Some(label) => Some(label),
        None => None,
    }
}

impl Promise {
    /// Whether the theorem fulfils the promise, where these are the labels of all promises in the order of their numbers. It takes no memory.
    pub fn accept(&self, forked: &[Label], proof: &Cthm) -> Result<(), AcceptFault>
        ensures { MatchResult result (λ _. Fulfils forked.now self.now proof.now) (IsRefusal forked.now self.now proof.now) }
    {
        let theory = theory_of(proof);
        let own = &*self.stage;
        if let Some(declaration) = theory.missing(own) {
            return Err(AcceptFault::BadTheory { declaration });
        }
        let theorem = proof.thm();
        if !is_of_prop(theorem, &self.prop) {
            return Err(AcceptFault::BadProp);
        }
        if !is_without_hyps(theorem) {
            return Err(AcceptFault::OpenHyps);
        }
        if !is_without_pairs(theorem) {
            return Err(AcceptFault::OpenPairs);
        }
        match first_dependency(forked, self.number, theorem) {
            Some(label) => Err(AcceptFault::BadDependency { label }),
            None => Ok(()),
        }
    }
}

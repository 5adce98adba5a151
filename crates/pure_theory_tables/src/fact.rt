//! What stands under the names of facts.
ghost use Rattle.std.specs.Prelude.{◌≡◌, MatchOption, None, Some};

use crate::labels::is_same_label;
use pure_term::{Label, Term};
use std::marker::Model;
use std::sync::Arc;

/// What an axiom or a promise states, with the label where it is a promise.
#[derive(Drop)]
pub struct Statement {
    label: Option<Label>,
    prop: Arc<Term>,
}

impl Model for Statement {
    ghost use Rattle.pure_theory_tables.specs.Facts.{Stated, coded_stated};

    ghost Value = { Stated };

    ghost coded = { coded_stated };

    ghost view = { λ s. record { label = s.label; prop = s.prop.value } };
}

impl Statement {
    /// What is so stated.
    pub(crate) fn make(label: Option<Label>, prop: Arc<Term>) -> Statement
        ensures { result ≡ record { label = label; prop = prop.value } }
    {
        Statement { label, prop }
    }

    /// The label of a promise; none where it is an axiom.
    pub fn label(&self) -> Option<Label>
        ensures { result ≡ self.now.label }
    {
        self.label
    }

    /// What is stated.
    pub fn prop(&self) -> &Term
        ensures { result.now ≡ self.now.prop }
    {
        &*self.prop
    }

    /// What an axiom states; none where it is a promise.
    pub(crate) fn of_axiom(&self) -> Option<&Term>
        ensures { MatchOption result (¬ (self.now.label ≡ None)) (λ A. self.now ≡ record { label = None; prop = A.now }) }
    {
        match &self.label {
            None => Some(&*self.prop),
            Some(_) => None,
        }
    }

    /// What the promise with the label states; none where it is an axiom, or has another label.
    pub(crate) fn of_label(&self, label: Label) -> Option<&Term>
        ensures { MatchOption result (¬ (self.now.label ≡ Some label)) (λ A. self.now ≡ record { label = Some label; prop = A.now }) }
    {
        match &self.label {
            None => None,
            Some(own) => {
                if is_same_label(*own, label) {
                    Some(&*self.prop)
                } else {
                    None
                }
            }
        }
    }
}

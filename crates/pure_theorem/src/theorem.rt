//! Theorems and their copies.
ghost use Rattle.std.specs.Prelude.{◌≡◌, IfOk};

use crate::lists::{copied_pairs, copied_terms};
use pure_term::{Label, Term};
use std::alloc::{AllocError, Global};
use std::marker::Model;

/// Two terms that unification left to be made equal.
#[derive(Drop)]
pub struct Pair {
    pub left: Term,
    pub right: Term,
}

impl Model for Pair {
    ghost use Rattle.pure_logic.specs.Derivable as logic;
    ghost use Rattle.pure_theorem.specs.Codes.{coded_pair};

    ghost Value = { logic.Pair };

    ghost coded = { coded_pair };

    ghost view = { λ p. record { left = p.left; right = p.right } };
}

impl Pair {
    /// An equal pair.
    pub fn copy(&self, alloc: Global) -> Result<Pair, AllocError>
        ensures { IfOk result (λ p. p ≡ self.now) }
    {
        let left = self.left.copy(alloc)?;
        let right = self.right.copy(alloc)?;
        Ok(Pair { left, right })
    }
}

/// A theorem: a proposition, with the hypotheses and the equations of pairs under which it holds, and the promises on which it rests. Hypotheses and promises are sets, which ascend strictly.
#[derive(Drop)]
pub struct Thm {
    pub hyps: Vec<Term>,
    pub pairs: Vec<Pair>,
    pub prop: Term,
    pub rests: Vec<Label>,
}

impl Model for Thm {
    ghost use Rattle.pure_logic.specs.Derivable as logic;
    ghost use Rattle.pure_theorem.specs.Codes.{coded_theorem};
    ghost use Rattle.pure_theorem.specs.Sets.{IsTermSet, IsLabelSet};

    ghost Value = { logic.Theorem };

    ghost coded = { coded_theorem };

    ghost view = { λ t. record { hyps = t.hyps.items; pairs = t.pairs.items; prop = t.prop; rests = t.rests.items } };

    ghost invariant = { λ t. IsTermSet t.hyps.items × IsLabelSet t.rests.items };
}

impl Thm {
    /// An equal theorem.
    pub fn copy(&self, alloc: Global) -> Result<Thm, AllocError>
        ensures { IfOk result (λ th. th ≡ self.now) }
    {
        let hyps = copied_terms(alloc, &self.hyps)?;
        let pairs = copied_pairs(alloc, &self.pairs)?;
        let rests = Vec::from_slice(alloc, &self.rests)?;
        let prop = self.prop.copy(alloc)?;
        Ok(Thm {
            hyps,
            pairs,
            prop,
            rests,
        })
    }
}

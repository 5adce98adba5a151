//! `bottom`, with a theorem that says what constants are equal to.
ghost use Rattle.std.specs.Prelude.{◌≡◌, [], IsTrue, Some, Ok};
ghost use Rattle.pure_definitions.specs.Types.Typ as types;
ghost use Rattle.pure_definitions.specs.Terms.Term as terms;
ghost use Rattle.pure_logic.specs.Connectives.{eq};
ghost use Rattle.pure_logic.specs.Derivable as logic;
ghost use Rattle.pure_theorem.specs.Shapes.{IsTyped};
ghost use Rattle.pure_conv.specs.Bottom.{IsEquationFrom};

use crate::answers::Answer;
use pure_conv::{ConvFault, bottom};
use pure_shown::Classes;
use pure_term::{Term, TermNode};
use pure_theorem::{Thm, are_same, as_equation};
use std::alloc::Global;
use std::sync::atomic::{AtomicU64, Ordering};

/// Whether the theorem has neither hypotheses nor pairs.
fn is_alone(th: &Thm) -> bool
    ensures hyps { IsTrue result → th.now.hyps ≡ [] }
    ensures pairs { IsTrue result → th.now.pairs ≡ [] }
{
    th.hyps.as_slice().is_empty() && th.pairs.as_slice().is_empty()
}

/// Whether the proposition equates the term with another.
fn equates(prop: &Term, t: &Term) -> bool
    ensures { IsTrue result → ((typ : types.Typ) × (right : terms.Term) × (prop.now ≡ eq typ t.now right)) }
{
    let Some((_, left, _)) = as_equation(prop) else {
        return false;
    };
    are_same(left, t)
}

/// Whether the theorem is an equation from the term, without hypotheses and pairs. What it ensures is there for `told`.
#[tactic(auto, using(crate::proofs::EquationLemmas::equation_from))]
fn is_equation_from(t: &Term, th: &Thm) -> bool
    ensures { IsTrue result → IsEquationFrom t.now th.now }
{
    if !is_alone(th) {
        return false;
    }
    equates(&th.prop, t)
}

/// What the theorem says of the constant: itself where it is an equation from it, and nothing where it is one from another term; else a fault.
fn told(alloc: Global, th: &Thm, constant: &Term) -> Result<Option<Thm>, ConvFault>
    ensures { (own : logic.Theorem) → result ≡ Ok (Some own) → IsEquationFrom constant.now own }
{
    let Some(_) = as_equation(&th.prop) else {
        return Err(ConvFault::NotEquality);
    };
    if !is_equation_from(constant, th) {
        return Ok(None);
    }
    Ok(Some(th.copy(alloc)?))
}

/// What was asked of, in order: the numbers of the constants' names, two digits for each.
#[derive(Drop)]
pub(crate) struct Asked {
    numbers: AtomicU64,
}

impl Asked {
    /// Nothing was asked of yet.
    pub(crate) fn new() -> Asked {
        Asked {
            numbers: AtomicU64::new(0),
        }
    }

    /// The numbers.
    pub(crate) fn numbers(&self) -> u64 {
        self.numbers.load(Ordering::SeqCst)
    }

    /// Adds the constant.
    fn add(&self, constant: &Term) {
        let number = match &constant.node {
            TermNode::Const { name, .. } => u64::from(name.0),
            _ => 99,
        };
        let before = self.numbers();
        let after = before.wrapping_mul(100).wrapping_add(number);
        self.numbers.store(after, Ordering::SeqCst);
    }
}

/// The constants of the term replaced as the theorem says.
pub(crate) fn replaced(alloc: Global, thy: &Classes, t: &Term, th: &Thm, asked: &Asked) -> Answer
    requires { IsTyped t.now }
{
    let say = |_thy: &Classes, constant: &Term| -> Result<Option<Thm>, ConvFault>
        ensures { (own : logic.Theorem) → result ≡ Ok (Some own) → IsEquationFrom constant.now own }
    {
        asked.add(constant);
        told(alloc, th, constant)
    };
    bottom(alloc, thy, &say, t)
}

//! Theorems under a pair that unification left.
ghost use Rattle.std.specs.Prelude.{◌≡◌, ◌∷◌, IsTrue, IfOk, IfSome};
ghost use Rattle.pure_definitions.specs.Types.Typ.{prop};
ghost use Rattle.pure_logic.specs.Connectives.{eq};
ghost use Rattle.pure_logic.specs.Derivable.{IsDerivable};
ghost use Rattle.pure_promise_rows.specs.Pairs.{MayStand};

use crate::names::VARIABLE;
use crate::session::is_proposition;
use pure_term::{Term, TermNode};
use pure_theorem::{Pair, Thm, copied_terms, equation, extend_pairs, prop_typ};
use pure_theory::Theory;
use std::alloc::{AllocError, Global};
use std::mem;

/// `?A` of this index.
fn variable_at(alloc: Global, index: u32) -> Term {
    let node = TermNode::Var {
        name: VARIABLE,
        index,
        typ: prop_typ(alloc),
    };
    Term { node }
}

/// Two variables: a pair that is left as it is.
fn flexible(alloc: Global) -> Pair {
    let left = variable_at(alloc, 0);
    let right = variable_at(alloc, 1);
    Pair { left, right }
}

/// The sides of the pair are equal.
fn sides_equal(alloc: Global, pair: &Pair) -> Result<Term, AllocError>
    ensures { IfOk result (λ t. t ≡ eq prop pair.now.left pair.now.right) }
{
    let left = pair.left.copy(alloc)?;
    let right = pair.right.copy(alloc)?;
    equation(alloc, &prop_typ(alloc), left, right)
}

/// Whether the sides are propositions of the theory, and their equation too.
fn may_stand(alloc: Global, theory: &Theory, pair: &Pair) -> bool
    ensures { IsTrue result → MayStand theory.now pair.now }
{
    match sides_equal(alloc, pair) {
        Ok(equation) => is_proposition(theory, &equation) && is_proposition(theory, &pair.left),
        Err(_) => false,
    }
}

/// An equal pair.
fn copied_pair(alloc: Global, pair: &Pair) -> Result<Pair, AllocError>
    ensures { IfOk result (λ same. same ≡ pair.now) }
{
    let left = pair.left.copy(alloc)?;
    let right = pair.right.copy(alloc)?;
    Ok(Pair { left, right })
}

/// The theorem with a pair more in front.
fn with_pair(alloc: Global, pair: &Pair, th: &Thm) -> Result<Thm, AllocError>
    ensures { IfOk result (λ new. new ≡ record th.now { pairs = pair.now ∷ th.now.pairs }) }
{
    let first = copied_pair(alloc, pair)?;
    let mut pairs = Vec::new(alloc);
    pairs.push(first)?;
    extend_pairs(alloc, &mut pairs, &th.pairs)?;
    let hyps = copied_terms(alloc, &th.hyps)?;
    let prop = th.prop.copy(alloc)?;
    let rests = Vec::from_slice(alloc, &th.rests)?;
    Ok(Thm {
        hyps,
        pairs,
        prop,
        rests,
    })
}

/// The theorem under the pair.
fn under(alloc: Global, theory: &Theory, pair: &Pair, th: &Thm) -> Option<Thm>
    requires { IsDerivable theory.now th.now }
    ensures { IfSome result (IsDerivable theory.now) }
{
    if !may_stand(alloc, theory, pair) {
        return None;
    }
    match with_pair(alloc, pair, th) {
        Ok(new) => Some(new),
        Err(_) => None,
    }
}

/// The theorem under a pair of two variables.
pub(crate) fn paired(alloc: Global, theory: &Theory, th: &Thm) -> Option<Thm>
    requires { IsDerivable theory.now th.now }
    ensures { IfSome result (IsDerivable theory.now) }
{
    let pair = flexible(alloc);
    let answer = under(alloc, theory, &pair, th);
    mem::forget(pair);
    answer
}

//! A goal's proposition taken apart: its subgoals, and the marked statement.
ghost use Rattle.std.specs.Prelude.{◌≡◌, ◌++◌, List, length, IfOk};
ghost use Rattle.pure_definitions.specs.Terms.Term as tree;
ghost use Rattle.pure_logic.specs.Connectives.{chain, protect};

use pure_term::Term;
use pure_theorem::as_implication;
use std::alloc::{AllocError, Global};

/// Puts the premises before a mark behind those of the list, and gives what is marked, with the mark.
pub fn put_premises(alloc: Global, t: &Term, premises: &mut Vec<Term>) -> Result<Term, AllocError>
    ensures { (As : List tree.Term) → (C : tree.Term) → t.now ≡ chain As (protect C) → IfOk result (λ marked. (premises.new.items ≡ premises.old.items ++ As) × (marked ≡ protect C)) }
{
    let Some((premise, rest)) = as_implication(t) else {
        return t.copy(alloc);
    };
    premises.push(premise.copy(alloc)?)?;
    put_premises(alloc, rest, premises)
}

/// Puts so many premises behind those of the list, and gives what is behind them.
pub fn put_first<'t>(
    alloc: Global,
    t: &'t Term,
    count: usize,
    premises: &mut Vec<Term>,
) -> Result<&'t Term, AllocError>
    ensures { (front others : List tree.Term) → (C : tree.Term) → t.now ≡ chain (front ++ others) (protect C) → count ≡ length front → IfOk result (λ rest. (premises.new.items ≡ premises.old.items ++ front) × (rest.now ≡ chain others (protect C))) }
{
    if count == 0 {
        return Ok(t);
    }
    let Some((premise, rest)) = as_implication(t) else {
        return Ok(t);
    };
    premises.push(premise.copy(alloc)?)?;
    put_first(alloc, rest, count - 1, premises)
}

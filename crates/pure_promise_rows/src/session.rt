//! Theories with promises, each grown from the one before.
ghost use Rattle.std.specs.Prelude.{◌≡◌, ◌+◌, IsTrue, IfOk, IfSome};
ghost use Rattle.pure_logic.specs.Content.{IsProposition, IsSchematic};
ghost use Rattle.pure_promise_rows.specs.Earlier.{AreEarlier};

use crate::names::{VARIABLE, label_at, name_at};
use pure_term::{Term, TermNode};
use pure_theorem::{implication, is_prop, prop_typ};
use pure_theory::{Stage, Theory};
use pure_theory_tables::shared;
use std::alloc::{AllocError, Global};
use std::mem;
use std::sync::Arc;

/// What a lemma states: `?A`, or `?A ==> ?A`.
#[derive(Clone, Copy)]
pub(crate) enum Statement {
    Variable,
    Implication,
}

/// `?A`
pub(crate) fn variable(alloc: Global) -> Term
    ensures { IsSchematic result }
{
    let node = TermNode::Var {
        name: VARIABLE,
        index: 0,
        typ: prop_typ(alloc),
    };
    Term { node }
}

/// The statement as a term.
pub(crate) fn proposition(alloc: Global, statement: Statement) -> Result<Term, AllocError>
    ensures { IfOk result IsSchematic }
{
    match statement {
        Statement::Variable => Ok(variable(alloc)),
        Statement::Implication => implication(alloc, variable(alloc), variable(alloc)),
    }
}

/// Whether the term is a proposition of the theory.
pub(crate) fn is_proposition(theory: &Theory, t: &Term) -> bool
    ensures { IsTrue result → IsProposition theory.now t.now }
{
    match theory.certify(t) {
        Ok(typ) => is_prop(&typ),
        Err(_) => false,
    }
}

/// Pure.
pub(crate) fn pure_theory(alloc: Global) -> Option<Theory>
    ensures { IfSome result (λ theory. AreEarlier 0 theory.declarations) }
{
    match Theory::pure(alloc) {
        Ok(pure) => Some(pure),
        Err(_) => None,
    }
}

/// Pure, shared.
pub(crate) fn shared_pure(alloc: Global) -> Option<Stage>
    ensures { IfSome result (λ stage. AreEarlier 0 stage.value.declarations) }
{
    let pure = pure_theory(alloc)?;
    match shared(alloc, pure) {
        Ok(stage) => Some(stage),
        Err(_) => None,
    }
}

/// The theory with the promise of the lemma at the place more, which states this.
fn with_promise(theory: &Theory, place: u32, prop: Arc<Term>) -> Option<Theory>
    requires earlier { AreEarlier place theory.now.declarations }
    requires schematic { IsSchematic prop.value }
    ensures { IfSome result (λ more. AreEarlier (place + 1) more.declarations) }
{
    if !is_proposition(theory, &*prop) {
        mem::forget(prop);
        return None;
    }
    match theory.declare_promise(name_at(place), label_at(place), prop) {
        Ok(more) => Some(more),
        Err(_) => None,
    }
}

/// The statement as a term that is shared.
pub(crate) fn shared_proposition(
    alloc: Global,
    statement: Statement,
) -> Result<Arc<Term>, AllocError>
    ensures { IfOk result (λ prop. IsSchematic prop.value) }
{
    let prop = proposition(alloc, statement)?;
    shared(alloc, prop)
}

/// The theory with the promise of the lemma at the place more, which states this.
pub(crate) fn promised(
    alloc: Global,
    theory: &Theory,
    place: u32,
    statement: Statement,
) -> Option<Theory>
    requires { AreEarlier place theory.now.declarations }
    ensures { IfSome result (λ more. AreEarlier (place + 1) more.declarations) }
{
    match shared_proposition(alloc, statement) {
        Ok(prop) => with_promise(theory, place, prop),
        Err(_) => None,
    }
}

//! Normal forms as steps of a command, and the limit of statements.
ghost use Rattle.std.specs.Prelude.{◌↔◌, ℕ, List, IfOk, IsTrue};
ghost use Rattle.pure_definitions.specs.Types.Typ as tree;
ghost use Rattle.pure_definitions.specs.Terms.Bounds.{IsClosed};
ghost use Rattle.pure_definitions.specs.Terms.Term.{IsWithin};
ghost use Rattle.pure_definitions.specs.Reduction.Beta.{IsAbs, IsBetaNormal};
ghost use Rattle.pure_logic.specs.Content.{Content, IsCertifiedOf};
ghost use Rattle.pure_statements.specs.Chain.{Answers};
ghost use Rattle.pure_statements.specs.Statement.{IsNormalised, IsLarge};

use crate::reason::{Failed, Reason};
use pure_norm::{NormFault, beta_norm};
use pure_term::{Term, TermNode, is_within, size};
use std::alloc::Global;

/// The greatest size of a statement.
pub const MAX_STATEMENT: u32 = 3000;

/// The normal form of a term, or why it has none.
pub fn normalised(alloc: Global, t: &Term) -> Result<Term, Failed>
    requires { IsClosed t.now }
    ensures answer { Answers (IsNormalised t.now) result }
    ensures normal { IfOk result IsBetaNormal }
    ensures within { IfOk result IsWithin }
    ensures certified { IfOk result (λ u. (Q : Content) (T : tree.Typ) → IsCertifiedOf Q t.now T → IsCertifiedOf Q u T) }
{
    match beta_norm(alloc, t) {
        Ok(u) => Ok(u),
        Err(NormFault::Big) => Err(Failed::Refused {
            reason: Reason::TooLarge,
        }),
        Err(NormFault::Steps) => Err(Failed::Refused {
            reason: Reason::TooManySteps,
        }),
        Err(NormFault::Memory) => Err(Failed::Memory),
    }
}

/// Whether the term is an abstraction.
fn is_abs(t: &Term) -> bool
    ensures { IsAbs t.now → IsTrue result }
{
    match &t.node {
        TermNode::Abs { .. } => true,
        _ => false,
    }
}

/// Whether no subterm is a redex.
fn has_no_redex(t: &Term) -> bool
    ensures { IsTrue result → IsBetaNormal t.now }
{
    match &t.node {
        TermNode::Abs { body, .. } => has_no_redex(body),
        TermNode::App { fun, arg, .. } => !is_abs(fun) && has_no_redex(fun) && has_no_redex(arg),
        _ => true,
    }
}

/// Whether the term is its own normal form.
fn is_own_normal_form(t: &Term) -> bool
    ensures { IsTrue result → (IsBetaNormal t.now × IsWithin t.now) }
{
    has_no_redex(t) && is_within(t)
}

/// The normal form of a term that isn't needed any more, or why it has none. Most statements are in normal form as they are written: these are handed on.
pub(crate) fn normal_form_of(alloc: Global, t: Term) -> Result<Term, Failed>
    requires { IsClosed t }
    ensures answer { Answers (IsNormalised t) result }
    ensures certified { IfOk result (λ u. (Q : Content) (T : tree.Typ) → IsCertifiedOf Q t T → IsCertifiedOf Q u T) }
{
    if is_own_normal_form(&t) {
        return Ok(t);
    }
    normalised(alloc, &t)
}

/// Whether the statement is too large to be stored.
pub fn is_large(t: &Term) -> bool
    ensures { IsTrue result ↔ IsLarge t.now }
{
    size(t) > MAX_STATEMENT
}

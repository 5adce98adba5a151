//! Terms in a scope that are expanded everywhere, told without a copy.
ghost use Rattle.std.specs.Prelude.{◌≡◌};
ghost use Rattle.std.specs.Bool.{OnTrue};
ghost use Rattle.pure_definitions.specs.Terms.Term as term;
ghost use Rattle.pure_term.specs.Scope.{scope_typs};
ghost use Rattle.pure_eta.specs.LongTerm.{front_typ, expanded_at, long_term};

use crate::front::front_typ_of;
use crate::own::is_base;
use pure_term::{Scope, Term, TermNode};

/// Whether the term, as a function that is applied or not, is expanded everywhere.
pub fn is_expanded(t: &Term, scope: &Scope, is_applied: bool) -> bool
    ensures { OnTrue result (long_term is_applied (scope_typs scope.now) t.now ≡ t.now) }
{
    match &t.node {
        TermNode::Const { .. } => is_expanded_here(t, scope, is_applied),
        TermNode::Free { .. } => is_expanded_here(t, scope, is_applied),
        TermNode::Var { .. } => is_expanded_here(t, scope, is_applied),
        TermNode::Bound { .. } => is_expanded_here(t, scope, is_applied),
        TermNode::Abs { typ, body, .. } => is_expanded(body, &Scope::Under(typ, &*scope), false),
        TermNode::App { fun, arg, .. } => {
            if !is_expanded_here(t, scope, is_applied) {
                return false;
            }
            if !is_expanded(fun, scope, true) {
                return false;
            }
            is_expanded(arg, scope, false)
        }
    }
}

/// Whether the term isn't expanded as a whole: it is applied, or isn't of a type of functions.
fn is_expanded_here(t: &Term, scope: &Scope, is_applied: bool) -> bool
    ensures { OnTrue result ((u : term.Term) → expanded_at is_applied (front_typ (scope_typs scope.now) t.now) u ≡ u) }
{
    if is_applied {
        return true;
    }
    match front_typ_of(t, scope) {
        Some(typ) => is_base(typ),
        None => true,
    }
}

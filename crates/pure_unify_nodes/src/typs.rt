//! Whether two sides are of one type, told without a copy.
ghost use Rattle.std.specs.Prelude.{[], IfSome};
ghost use Rattle.std.specs.Bool.{OnTrue};
ghost use Rattle.pure_term.specs.Scope.{scope_typs};
ghost use Rattle.pure_unify_nodes.specs.OneTyp.{HasNoOther, HaveOneTyp};

use pure_term::{Scope, Term, TermNode, Typ, typ_at};
use pure_theorem::are_same_typs;

/// The type of the term, where it has one and is no abstraction: what its head's type leaves for its arguments, at which this doesn't look.
fn front_typ<'t>(t: &'t Term, scope: &Scope<'_, 't>) -> Option<&'t Typ>
    ensures { IfSome result (λ typ. HasNoOther (scope_typs scope.now) t.now typ.now) }
{
    match &t.node {
        TermNode::Const { typ, .. } => Some(typ),
        TermNode::Free { typ, .. } => Some(typ),
        TermNode::Var { typ, .. } => Some(typ),
        TermNode::Bound { place } => {
            let Some(typ) = typ_at(scope, *place) else {
                return None;
            };
            Some(typ)
        }
        TermNode::Abs { .. } => None,
        TermNode::App { fun, .. } => {
            let Some(typ) = front_typ(fun, &*scope) else {
                return None;
            };
            let Some((_, range)) = typ.as_arrow() else {
                return None;
            };
            Some(range)
        }
    }
}

/// Whether two terms that are no abstractions have one type, where they have types.
fn have_same_typ(l: &Term, r: &Term, scope: &Scope) -> bool
    ensures { OnTrue result (HaveOneTyp (scope_typs scope.now) l.now r.now) }
{
    let Some(typ) = front_typ(l, scope) else {
        return false;
    };
    let Some(other) = front_typ(r, scope) else {
        return false;
    };
    if !are_same_typs(typ, other) {
        return false;
    }
    true
}

/// The same of two terms that may be abstractions.
fn have_one_typ_under(l: &Term, r: &Term, scope: &Scope) -> bool
    ensures { OnTrue result (HaveOneTyp (scope_typs scope.now) l.now r.now) }
{
    match (&l.node, &r.node) {
        (
            TermNode::Abs { typ, body, .. },
            TermNode::Abs {
                typ: other,
                body: second,
                ..
            },
        ) => {
            if !are_same_typs(typ, other) {
                return false;
            }
            have_one_typ_under(body, second, &Scope::Under(typ, &*scope))
        }
        _ => have_same_typ(l, r, scope),
    }
}

/// Whether two terms have one type, where they have types.
pub fn have_one_typ(l: &Term, r: &Term) -> bool
    ensures { OnTrue result (HaveOneTyp [] l.now r.now) }
{
    have_one_typ_under(l, r, &Scope::Empty)
}

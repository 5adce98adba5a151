//! Terms that are their own long forms, told without a copy.
ghost use Rattle.std.specs.Prelude.{◌≡◌, IfSome};
ghost use Rattle.std.specs.Bool.{OnTrue};
ghost use Rattle.pure_definitions.specs.Terms.Term.{IsWithin};
ghost use Rattle.pure_definitions.specs.Reduction.Eta.{arrow_count};
ghost use Rattle.pure_term.specs.Scope.{scope_typs};
ghost use Rattle.pure_unify_nodes.specs.Long.{IsLongSide};
ghost use Rattle.pure_unify_nodes.specs.SideAnswer.{IsTyped};
ghost use Rattle.pure_unify_nodes.specs.OwnForm.{IsFront, IsLongUnder};

use pure_term::{Scope, Term, TermNode, Typ, is_within, typ_at};

/// Whether the type has no arrows.
fn is_base(typ: &Typ) -> bool
    ensures { OnTrue result (arrow_count typ.now ≡ 0) }
{
    let Some(_) = typ.as_arrow() else {
        return true;
    };
    false
}

/// The type of the term, where it is no abstraction and the arguments of its head are long.
#[cycle(long)]
fn front_typ<'t>(t: &'t Term, scope: &Scope<'_, 't>) -> Option<&'t Typ>
    ensures { IfSome result (λ typ. IsFront (scope_typs scope.now) t.now typ.now) }
{
    match &t.node {
        TermNode::Const { typ, .. } => Some(typ),
        TermNode::Free { typ, .. } => Some(typ),
        TermNode::Var { typ, .. } => Some(typ),
        TermNode::Bound { place } => {
            let Some(typ) = typ_at(scope, *place) else {
                return None;
            };
            Some(typ)
        }
        TermNode::Abs { .. } => None,
        TermNode::App { fun, arg, .. } => {
            let Some(typ) = front_typ(fun, &*scope) else {
                return None;
            };
            let Some((_, range)) = typ.as_arrow() else {
                return None;
            };
            if !is_long_under(arg, &*scope) {
                return None;
            }
            Some(range)
        }
    }
}

/// Whether the term, which isn't applied, is long in its scope.
#[cycle(long)]
fn is_long_under(t: &Term, scope: &Scope) -> bool
    ensures { OnTrue result (IsLongUnder (scope_typs scope.now) t.now) }
{
    match &t.node {
        TermNode::Abs { typ, body, .. } => is_long_under(body, &Scope::Under(typ, &*scope)),
        _ => match front_typ(&*t, &*scope) {
            Some(typ) => is_base(typ),
            None => false,
        },
    }
}

/// Whether a term within the limits is its own long form.
pub fn is_long(t: &Term) -> bool
    requires typed { IsTyped t.now }
    requires within { IsWithin t.now }
    ensures { OnTrue result (IsLongSide t.now) }
{
    is_long_under(t, &Scope::Empty)
}

/// Whether the term is its own long form, within the limits.
pub fn is_own(t: &Term) -> bool
    requires { IsTyped t.now }
    ensures { OnTrue result (IsLongSide t.now) }
{
    if !is_long_under(t, &Scope::Empty) {
        return false;
    }
    if !is_within(t) {
        return false;
    }
    true
}

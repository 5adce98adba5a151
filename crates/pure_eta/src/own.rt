//! Terms that are their own long forms, told without a copy.
ghost use Rattle.std.specs.Prelude.{◌≡◌, [], IfSome, IsTrue};
ghost use Rattle.std.specs.Bool.{OnTrue};
ghost use Rattle.pure_definitions.specs.Types.Typ as tree;
ghost use Rattle.pure_definitions.specs.Terms.Typing.{HasType};
ghost use Rattle.pure_definitions.specs.Reduction.Eta.{arrow_count, IsLongForm};
ghost use Rattle.pure_term.specs.Scope.{scope_typs};
ghost use Rattle.pure_eta.specs.OwnForm.{IsOwnFront, IsOwnLong};

use pure_term::{Scope, Term, TermNode, Typ, typ_at};

/// Whether the type has no arrows.
pub fn is_base(typ: &Typ) -> bool
    ensures { OnTrue result (arrow_count typ.now ≡ 0) }
{
    let Some(_) = typ.as_arrow() else {
        return true;
    };
    false
}

/// The type of the term, where it is no abstraction and the arguments of its head are long.
#[cycle(long)]
fn own_front_typ<'t>(t: &'t Term, scope: &Scope<'_, 't>) -> Option<&'t Typ>
    ensures { IfSome result (λ typ. IsOwnFront (scope_typs scope.now) t.now typ.now) }
{
    match &t.node {
        TermNode::Const { typ, .. } => Some(typ),
        TermNode::Free { typ, .. } => Some(typ),
        TermNode::Var { typ, .. } => Some(typ),
        TermNode::Bound { place } => {
            let Some(typ) = typ_at(scope, *place) else {
                return None;
            };
            Some(typ)
        }
        TermNode::Abs { .. } => None,
        TermNode::App { fun, arg, .. } => {
            let Some(typ) = own_front_typ(fun, &*scope) else {
                return None;
            };
            let Some((_, range)) = typ.as_arrow() else {
                return None;
            };
            if !is_long_under(arg, &*scope) {
                return None;
            }
            Some(range)
        }
    }
}

/// Whether the term, which isn't applied, is long in its scope.
#[cycle(long)]
fn is_long_under(t: &Term, scope: &Scope) -> bool
    ensures { OnTrue result (IsOwnLong (scope_typs scope.now) t.now) }
{
    match &t.node {
        TermNode::Abs { typ, body, .. } => is_long_under(body, &Scope::Under(typ, &*scope)),
        _ => match own_front_typ(&*t, &*scope) {
            Some(typ) => is_base(typ),
            None => false,
        },
    }
}

/// Whether the term, which has a type under no binders, is beta-normal and its own long form.
pub fn is_own_long_form(t: &Term) -> bool
    requires { (T : tree.Typ) × HasType [] t.now T }
    ensures { IsTrue result → IsLongForm t.now t.now }
{
    is_long_under(t, &Scope::Empty)
}

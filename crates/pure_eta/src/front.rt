//! The type of a constant or a variable applied to arguments.
ghost use Rattle.std.specs.Prelude.{◌≡◌, Some, None, MatchOption};
ghost use Rattle.pure_term.specs.Scope.{scope_typs};
ghost use Rattle.pure_eta.specs.LongTerm.{front_typ};

use pure_term::{Scope, Term, TermNode, Typ, typ_at};

/// The type of a typed term whose front is a constant or a variable, as it stands in the term or in its scope.
pub fn front_typ_of<'t>(t: &'t Term, scope: &Scope<'_, 't>) -> Option<&'t Typ>
    ensures { MatchOption result (front_typ (scope_typs scope.now) t.now ≡ None) (λ typ. front_typ (scope_typs scope.now) t.now ≡ Some typ.now) }
{
    match &t.node {
        TermNode::Const { typ, .. } => Some(typ),
        TermNode::Free { typ, .. } => Some(typ),
        TermNode::Var { typ, .. } => Some(typ),
        TermNode::Bound { place } => typ_at(scope, *place),
        TermNode::Abs { .. } => None,
        TermNode::App { fun, .. } => {
            let Some(typ) = front_typ_of(fun, scope) else {
                return None;
            };
            let Some((_, range)) = typ.as_arrow() else {
                return None;
            };
            Some(range)
        }
    }
}

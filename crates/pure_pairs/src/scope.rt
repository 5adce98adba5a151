//! Terms under the binders of a scope, and the sides of pairs.
ghost use Rattle.std.specs.Prelude.{◌≡◌, [], ◌∷◌, MatchOption};
ghost use Rattle.pure_definitions.specs.Terms.Term.{term_eq};
ghost use Rattle.pure_term.specs.Scope.{scope_typs};
ghost use Rattle.pure_pairs.specs.Modulo.{closed_over};
ghost use Rattle.pure_pairs.specs.Difference.{IsNotOver, is_either_way, is_listed};

use pure_term::{Scope, Term, TermNode, Typ};
use pure_theorem::Pair;

/// The body of an abstraction over a variable of the type.
fn body_of<'t>(t: &'t Term, typ: &Typ) -> Option<&'t Term>
    ensures { MatchOption result (IsNotOver (typ.now ∷ []) t.now) (λ b. t.now ≡ closed_over (typ.now ∷ []) b.now) }
{
    match &t.node {
        TermNode::Abs { typ: own, body, .. } => { if *own == *typ { Some(body) } else { None } }
        _ => None,
    }
}

/// What stands below abstractions over variables of the scope's types, where the term begins with them.
fn opened<'t>(scope: &Scope<'_, '_>, t: &'t Term) -> Option<&'t Term>
    ensures { MatchOption result (IsNotOver (scope_typs scope.now) t.now) (λ b. t.now ≡ closed_over (scope_typs scope.now) b.now) }
{
    match scope {
        Scope::Empty => Some(t),
        Scope::Under(typ, outer) => match opened(outer, t) {
            Some(inside) => body_of(inside, typ),
            None => None,
        },
    }
}

/// Whether the side is the part below abstractions over the scope.
fn is_side(scope: &Scope<'_, '_>, side: &Term, part: &Term) -> bool
    ensures { result ≡ term_eq side.now (closed_over (scope_typs scope.now) part.now) }
{
    match opened(scope, side) {
        Some(inside) => *inside == *part,
        None => false,
    }
}

/// Whether the parts, below abstractions over the scope, are the sides of the pair, either way round.
fn is_pair(scope: &Scope<'_, '_>, pair: &Pair, t: &Term, u: &Term) -> bool
    ensures { result ≡ is_either_way pair.now (closed_over (scope_typs scope.now) t.now) (closed_over (scope_typs scope.now) u.now) }
{
    (is_side(scope, &pair.left, t) && is_side(scope, &pair.right, u))
        || (is_side(scope, &pair.left, u) && is_side(scope, &pair.right, t))
}

/// Whether the parts, below abstractions over the scope, are the sides of a listed pair, either way round.
pub fn is_listed_under(scope: &Scope<'_, '_>, pairs: &[Pair], t: &Term, u: &Term) -> bool
    ensures { result ≡ is_listed pairs.now (closed_over (scope_typs scope.now) t.now) (closed_over (scope_typs scope.now) u.now) }
{
    for pair in pairs {
        if is_pair(scope, pair, t, u) {
            return true;
        }
    }
    false
}

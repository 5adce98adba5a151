//! The types of the binders around a term.
ghost use Rattle.std.specs.Prelude.{◌≡◌, slice_get, Some, None, MatchOption};
ghost use Rattle.pure_term.specs.Scope.{scope_typs};

use pure_typ::Typ;

/// The types of the binders around a term, the innermost first.
#[derive(Clone, Copy)]
pub enum Scope<'s, 't> {
    Empty,
    Under(&'t Typ, &'s Scope<'s, 't>),
}

/// The type of the binder of this place.
pub fn typ_at<'t>(scope: &Scope<'_, 't>, place: u32) -> Option<&'t Typ>
    ensures { MatchOption result (slice_get (scope_typs scope.now) place ≡ None) (λ t. slice_get (scope_typs scope.now) place ≡ Some t.now) }
{
    match scope {
        Scope::Empty => None,
        Scope::Under(typ, outer) => {
            if place == 0 {
                Some(*typ)
            } else {
                typ_at(outer, place - 1)
            }
        }
    }
}

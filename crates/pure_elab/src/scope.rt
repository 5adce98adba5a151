//! The binders around a part of a term.
ghost use Rattle.std.specs.Prelude.{◌≡◌, IfOk, MatchOption, None, Some};
ghost use Rattle.pure_elab.specs.Meant as spec;
ghost use Rattle.pure_elab.specs.Drafts as drafts;
ghost use Rattle.pure_elab.specs.Scope.{binders_of};

use pure_text::Text;
use pure_typ::Typ;
use std::alloc::AllocError;

/// The binders around a part of a term, the innermost first, each with its name and its type.
#[derive(Clone, Copy)]
pub(crate) enum Scope<'s, 't> {
    Empty,
    Under(&'t Text, &'s Typ, &'s Scope<'s, 't>),
}

/// The place one further out.
fn outward(place: Option<u32>) -> Result<Option<u32>, AllocError>
    ensures { IfOk result (λ out. out ≡ spec.outward place) }
{
    match place {
        None => Ok(None),
        Some(place) => match place.checked_add(1) {
            None => Err(AllocError),
            Some(out) => Ok(Some(out)),
        },
    }
}

/// How many binders stand between a name and the innermost that binds it.
pub(crate) fn bound_place(scope: &Scope<'_, '_>, text: &[u8]) -> Result<Option<u32>, AllocError>
    ensures { IfOk result (λ place. place ≡ spec.bound_place (drafts.texts_of (binders_of scope.now)) text.now) }
{
    match scope {
        Scope::Empty => Ok(None),
        Scope::Under(name, _, outer) => {
            if name.bytes() == text {
                return Ok(Some(0));
            }
            let place = bound_place(outer, text)?;
            outward(place)
        }
    }
}

/// The type of the innermost binder with this name.
pub(crate) fn bound_typ<'s>(scope: &Scope<'s, '_>, text: &[u8]) -> Option<&'s Typ>
    ensures { MatchOption result (Unit {0}) (λ t. t.now ≡ drafts.bound_typ (binders_of scope.now) text.now) }
{
    match scope {
        Scope::Empty => None,
        Scope::Under(name, typ, outer) => {
            if name.bytes() == text {
                return Some(*typ);
            }
            bound_typ(outer, text)
        }
    }
}

//! What a name or variable of a written term means under binders.
ghost use Rattle.std.specs.Prelude.{◌≡◌, IfOk};
ghost use Rattle.pure_grammar.specs.declared.token.TokenKind.TheVariants as kinds;
ghost use Rattle.pure_elab.specs.Meant as spec;
ghost use Rattle.pure_elab.specs.Drafts.{texts_of};
ghost use Rattle.pure_elab.specs.Scope.{binders_of};

use crate::language::Language;
use crate::meaning::Meaning;
use crate::scope::{Scope, bound_place};
use pure_grammar::TokenKind;
use pure_typ::Name;
use std::alloc::AllocError;

/// Bound at the place, where there is one, or else this.
fn bound_or(place: Option<u32>, other: Meaning) -> Meaning
    ensures { result ≡ spec.bound_or place other }
{
    match place {
        Some(place) => Meaning::Bound { place },
        None => other,
    }
}

/// The constant, where there is one, or else this.
fn constant_or(constant: Option<Name>, other: Meaning) -> Meaning
    ensures { result ≡ spec.constant_or constant other }
{
    match constant {
        Some(name) => Meaning::Constant { name },
        None => other,
    }
}

/// The fixed variable of the name, where the text has one.
fn fixed_or_unknown(name: Option<Name>) -> Meaning
    ensures { result ≡ spec.fixed_or_unknown name }
{
    match name {
        Some(name) => Meaning::Fixed { name },
        None => Meaning::Unknown,
    }
}

/// What a plain name that isn't bound means.
fn free_meaning<L: Language>(language: &L, text: &[u8]) -> Meaning
    ensures { result ≡ spec.constant_or ((L.vocabulary language.now).constant_written text.now) (spec.fixed_or_unknown ((L.vocabulary language.now).name_written text.now)) }
{
    match language.find_const(text) {
        Some(name) => Meaning::Constant { name },
        None => fixed_or_unknown(language.find_name(text)),
    }
}

/// What a plain name means under the binders.
fn plain_meaning<L: Language>(
    language: &L,
    scope: &Scope<'_, '_>,
    text: &[u8],
) -> Result<Meaning, AllocError>
    ensures { IfOk result (λ m. m ≡ spec.meant (L.vocabulary language.now) (texts_of (binders_of scope.now)) kinds.Ident text.now) }
{
    let place = bound_place(scope, text)?;
    match place {
        Some(place) => Ok(Meaning::Bound { place }),
        None => Ok(free_meaning(language, text)),
    }
}

/// What the leaf means under the binders.
pub(crate) fn meaning_of<L: Language>(
    language: &L,
    scope: &Scope<'_, '_>,
    kind: TokenKind,
    text: &[u8],
) -> Result<Meaning, AllocError>
    ensures { IfOk result (λ m. m ≡ spec.meant (L.vocabulary language.now) (texts_of (binders_of scope.now)) kind text.now) }
{
    match kind {
        TokenKind::Ident => {
            let meaning = plain_meaning(language, scope, text)?;
            Ok(meaning)
        }
        TokenKind::Qualified => Ok(constant_or(language.find_const(text), Meaning::Unknown)),
        TokenKind::BoundName => {
            let place = bound_place(scope, text)?;
            Ok(bound_or(place, Meaning::Unknown))
        }
        TokenKind::Schem => Ok(Meaning::Schematic),
        TokenKind::Word => Ok(Meaning::Unknown),
        TokenKind::TypeVar => Ok(Meaning::Unknown),
        TokenKind::Number => Ok(Meaning::Unknown),
        TokenKind::Quote => Ok(Meaning::Unknown),
        TokenKind::Symbol => Ok(Meaning::Unknown),
        TokenKind::End => Ok(Meaning::Unknown),
    }
}

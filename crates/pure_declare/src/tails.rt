//! What rows say behind their heads.
ghost use Rattle.std.specs.Prelude.{◌≡◌, ◌++◌, IfOk};
ghost use Rattle.pure_print.specs.TypText.{typ_text};
ghost use Rattle.pure_statements.specs.Rows.{of_type};
ghost use Rattle.pure_declare.specs.Commands.{stating};

use crate::place::Place;
use pure_print::{print_term, print_typ};
use pure_term::Term;
use pure_text::Text;
use pure_typ::Typ;
use std::alloc::{AllocError, Global};

/// The sign, and then the text.
fn behind(alloc: Global, sign: &[u8], text: &[u8]) -> Result<Text, AllocError>
    ensures { IfOk result (λ t. t ≡ sign.now ++ text.now) }
{
    let mut bytes = Vec::from_slice(alloc, sign)?;
    bytes.extend_from_slice(text)?;
    Ok(Text::from(bytes))
}

/// A type behind its sign.
#[tactic(auto, unfolding(pure_statements::specs::Rows::of_type))]
pub(crate) fn typ_tail(alloc: Global, place: &Place<'_>, typ: &Typ) -> Result<Text, AllocError>
    ensures { IfOk result (λ t. t ≡ of_type ++ typ_text place.now.texts typ.now) }
{
    let text = print_typ(alloc, place.names(), typ)?;
    let tail = behind(alloc, b" :: ", text.bytes())?;
    Ok(tail)
}

/// A proposition behind a colon.
#[tactic(auto, unfolding(pure_statements::specs::Rows::colon))]
pub(crate) fn prop_tail(alloc: Global, place: &Place<'_>, prop: &Term) -> Result<Text, AllocError>
    ensures { IfOk result (λ t. t ≡ stating place.now prop.now) }
{
    let text = print_term(alloc, place.names(), prop)?;
    let tail = behind(alloc, b": ", text.bytes())?;
    Ok(tail)
}

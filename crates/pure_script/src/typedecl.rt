//! Declarations of types.
ghost use Rattle.std.specs.Prelude.{◌≡◌, IfOk};
ghost use Rattle.pure_grammar.specs.Theories.Reader as spec;
ghost use Rattle.pure_script.specs.Lexemes.{seen_lexeme};
ghost use Rattle.pure_script.specs.Places.{seen_turn, any_turn};

use crate::lexeme::{Lexeme, is_sign, variable_in};
use crate::place::{Turn, TypePlace, at_command, ident, moves_if, of_type, variable};
use crate::texts::Texts;
use crate::theory::Command;
use pure_grammar::Sign;
use std::alloc::{AllocError, Global};

/// The name of a type with so many parameters.
pub(crate) fn at_type_name(
    alloc: Global,
    params: u32,
    lexeme: Lexeme<'_>,
) -> Result<Turn, AllocError>
    ensures { IfOk result (λ turn. seen_turn turn ≡ any_turn (spec.AtTypeName params) (seen_lexeme lexeme.entry)) }
{
    match ident(alloc, lexeme)? {
        None => Ok(Turn::Refuses),
        Some(name) => Ok(Turn::Adds {
            command: Command::TypeDecl { name, params },
            place: at_command(),
        }),
    }
}

/// Behind `typedecl`.
pub(crate) fn at_params(alloc: Global, lexeme: Lexeme<'_>) -> Result<Turn, AllocError>
    ensures { IfOk result (λ turn. seen_turn turn ≡ any_turn spec.AtParams (seen_lexeme lexeme.entry)) }
{
    match variable_in(lexeme) {
        Some(_) => Ok(Turn::Moves {
            place: of_type(TypePlace::AtTypeName { params: 1 }),
        }),
        None => {
            if is_sign(Sign::OpenParenthesis, lexeme) {
                let params = Texts::none(alloc);
                return Ok(Turn::Moves {
                    place: of_type(TypePlace::AtParam { params }),
                });
            }
            at_type_name(alloc, 0, lexeme)
        }
    }
}

/// Where a type variable stands.
pub(crate) fn at_param(alloc: Global, params: Texts, lexeme: Lexeme<'_>) -> Result<Turn, AllocError>
    ensures { IfOk result (λ turn. seen_turn turn ≡ any_turn (spec.AtParam params) (seen_lexeme lexeme.entry)) }
{
    match variable(alloc, lexeme)? {
        None => Ok(Turn::Refuses),
        Some(param) => {
            let (was_there, params) = params.with(alloc, param)?;
            if was_there {
                return Ok(Turn::Refuses);
            }
            Ok(Turn::Moves {
                place: of_type(TypePlace::AfterParam { params }),
            })
        }
    }
}

/// Behind a type variable.
pub(crate) fn after_param(params: Texts, lexeme: Lexeme<'_>) -> Result<Turn, AllocError>
    ensures { IfOk result (λ turn. seen_turn turn ≡ any_turn (spec.AfterParam params) (seen_lexeme lexeme.entry)) }
{
    if is_sign(Sign::Comma, lexeme) {
        return Ok(Turn::Moves {
            place: of_type(TypePlace::AtParam { params }),
        });
    }
    let params = params.count()?;
    Ok(moves_if(
        is_sign(Sign::CloseParenthesis, lexeme),
        of_type(TypePlace::AtTypeName { params }),
    ))
}

//! Where a token of a binder leads to.
ghost use Rattle.std.specs.Prelude.{◌≡◌, IfOk};
ghost use Rattle.pure_grammar.specs.Terms.InnerReader as spec;
ghost use Rattle.pure_read.specs.Seen.{seen_lexeme};
ghost use Rattle.pure_read.specs.Frames.{seen_frame, seen_quantifier, seen_stack};
ghost use Rattle.pure_read.specs.States.{seen_next, seen_place};

use crate::frame::{Binder, Frame, Join, Quantifier, Stack, TypeOpen};
use crate::lexeme::{Lexeme, is_mark, opening_at, var_in};
use crate::raw::RawTyp;
use crate::state::{Place, State, goes, type_inside};
use pure_grammar::{Mark, Opening};
use std::alloc::{AllocError, Global};

/// What stands open behind a binder.
pub(crate) fn bound(binder: Binder, typ: Option<RawTyp>) -> Frame
    ensures { seen_frame result ≡ spec.bound (seen_quantifier binder.quantifier) binder.at binder.binder binder.var typ }
{
    let at = binder.at;
    let var = binder.var;
    let join = match binder.quantifier {
        Quantifier::All => Join::AllBody {
            at,
            binder: binder.binder,
            var,
            typ,
        },
        Quantifier::Lambda => Join::LambdaBody { at, var, typ },
    };
    Frame::Joined { join }
}

/// Where the body of a binder begins.
pub(crate) fn body_place(quantifier: Quantifier) -> Place
    ensures { seen_place result ≡ spec.body_place (seen_quantifier quantifier) }
{
    match quantifier {
        Quantifier::All => Place::AtTerm,
        Quantifier::Lambda => Place::AtCon,
    }
}

/// At the first binder.
pub(crate) fn at_binder(
    alloc: Global,
    quantifier: Quantifier,
    at: u32,
    stack: Stack,
    l: Lexeme<'_>,
) -> Result<Option<State>, AllocError>
    ensures { IfOk result (λ next. seen_next next ≡ spec.at_binder (seen_quantifier quantifier) at (seen_stack stack) (seen_lexeme l.entry)) }
{
    match opening_at(Opening::Parenthesis, l) {
        Some(binder) => {
            let place = Place::AtBinderVar {
                quantifier,
                at,
                binder,
            };
            Ok(goes(place, stack))
        }
        None => match var_in(alloc, l)? {
            Some(written) => {
                let binder = Binder {
                    quantifier,
                    at,
                    binder: written.at,
                    var: written.text,
                };
                Ok(goes(Place::AfterFirstVar { binder }, stack))
            }
            None => Ok(None),
        },
    }
}

/// Behind a binder, which another one or the dot follows.
pub(crate) fn after_binder(
    alloc: Global,
    quantifier: Quantifier,
    stack: Stack,
    l: Lexeme<'_>,
) -> Result<Option<State>, AllocError>
    ensures { IfOk result (λ next. seen_next next ≡ spec.after_binder (seen_quantifier quantifier) (seen_stack stack) (seen_lexeme l.entry)) }
{
    match opening_at(Opening::Parenthesis, l) {
        Some(at) => {
            let place = Place::AtBinderVar {
                quantifier,
                at,
                binder: at,
            };
            Ok(goes(place, stack))
        }
        None => match var_in(alloc, l)? {
            Some(written) => {
                let binder = Binder {
                    quantifier,
                    at: written.at,
                    binder: written.at,
                    var: written.text,
                };
                let stack = stack.with(bound(binder, None))?;
                Ok(goes(Place::AfterBinder { quantifier }, stack))
            }
            None => {
                if is_mark(Mark::Dot, l) {
                    return Ok(goes(body_place(quantifier), stack));
                }
                Ok(None)
            }
        },
    }
}

/// Behind the variable that comes first, which may be the only one with a type.
pub(crate) fn after_first_var(
    alloc: Global,
    binder: Binder,
    stack: Stack,
    l: Lexeme<'_>,
) -> Result<Option<State>, AllocError>
    ensures { IfOk result (λ next. seen_next next ≡ spec.after_first_var (seen_quantifier binder.quantifier) binder.at binder.binder binder.var (seen_stack stack) (seen_lexeme l.entry)) }
{
    if is_mark(Mark::DoubleColon, l) {
        return type_inside(stack, TypeOpen::OnlyBinderType { binder });
    }
    let quantifier = binder.quantifier;
    let stack = stack.with(bound(binder, None))?;
    after_binder(alloc, quantifier, stack, l)
}

/// Behind the parenthesis of a binder.
pub(crate) fn at_binder_var(
    alloc: Global,
    quantifier: Quantifier,
    at: u32,
    binder: u32,
    stack: Stack,
    l: Lexeme<'_>,
) -> Result<Option<State>, AllocError>
    ensures { IfOk result (λ next. seen_next next ≡ spec.turn (spec.AtBinderVar (seen_quantifier quantifier) at binder) (seen_stack stack) (seen_lexeme l.entry)) }
{
    match var_in(alloc, l)? {
        Some(written) => {
            let binder = Binder {
                quantifier,
                at,
                binder,
                var: written.text,
            };
            Ok(goes(Place::AfterBinderVar { binder }, stack))
        }
        None => Ok(None),
    }
}

/// Behind the variable of a binder in parentheses.
pub(crate) fn after_binder_var(
    binder: Binder,
    stack: Stack,
    l: Lexeme<'_>,
) -> Result<Option<State>, AllocError>
    ensures { IfOk result (λ next. seen_next next ≡ spec.turn (spec.AfterBinderVar (seen_quantifier binder.quantifier) binder.at binder.binder binder.var) (seen_stack stack) (seen_lexeme l.entry)) }
{
    if is_mark(Mark::DoubleColon, l) {
        return type_inside(stack, TypeOpen::BinderType { binder });
    }
    Ok(None)
}

//! Where a token leads to, from each place.
ghost use Rattle.std.specs.Prelude.{◌≡◌, IfOk};
ghost use Rattle.pure_grammar.specs.Terms.InnerReader as spec;
ghost use Rattle.pure_read.specs.Seen.{seen_lexeme};
ghost use Rattle.pure_read.specs.Frames.{seen_stack};
ghost use Rattle.pure_read.specs.States.{seen_next, seen_place, seen_state};

use crate::binder::{after_binder, after_binder_var, after_first_var, at_binder, at_binder_var};
use crate::frame::Stack;
use crate::lexeme::{Lexeme, is_mark};
use crate::sort::{after_class, at_first_class, at_next_class, at_sort};
use crate::state::{Place, State, goes_if};
use crate::term::{after_atom, con_begun, term_begun};
use crate::typ::{after_post, after_variable, at_constructor, type_begun};
use pure_grammar::Mark;
use std::alloc::{AllocError, Global};

/// Where the token leads to from the place.
fn turn(
    alloc: Global,
    place: Place,
    stack: Stack,
    l: Lexeme<'_>,
) -> Result<Option<State>, AllocError>
    ensures { IfOk result (λ next. seen_next next ≡ spec.turn (seen_place place) (seen_stack stack) (seen_lexeme l.entry)) }
{
    match place {
        Place::AtTerm => term_begun(alloc, stack, l),
        Place::AtCon => con_begun(alloc, stack, l),
        Place::AfterAtom { at, app } => after_atom(alloc, at, app, stack, l),
        Place::AtImplies => {
            let place = Place::AtTerm;
            Ok(goes_if(is_mark(Mark::Implies, l), State::In { place, stack }))
        }
        Place::AtBinder { quantifier, at } => at_binder(alloc, quantifier, at, stack, l),
        Place::AfterFirstVar { binder } => after_first_var(alloc, binder, stack, l),
        Place::AfterBinder { quantifier } => after_binder(alloc, quantifier, stack, l),
        Place::AtBinderVar {
            quantifier,
            at,
            binder,
        } => at_binder_var(alloc, quantifier, at, binder, stack, l),
        Place::AfterBinderVar { binder } => after_binder_var(binder, stack, l),
        Place::AtType => type_begun(alloc, stack, l),
        Place::AfterVariable { variable } => after_variable(alloc, variable, stack, l),
        Place::AtSort { variable } => at_sort(alloc, variable, stack, l),
        Place::AtFirstClass { variable } => at_first_class(alloc, variable, stack, l),
        Place::AfterClass { variable, classes } => Ok(after_class(variable, classes, stack, l)),
        Place::AtNextClass { variable, classes } => {
            at_next_class(alloc, variable, classes, stack, l)
        }
        Place::AfterPost { at, typ } => after_post(alloc, at, typ, stack, l),
        Place::AtConstructor { at, arguments } => at_constructor(alloc, at, arguments, stack, l),
        Place::AtArrow => {
            let place = Place::AtType;
            Ok(goes_if(is_mark(Mark::Arrow, l), State::In { place, stack }))
        }
    }
}

/// Where the text is, behind one more token.
pub(crate) fn next(alloc: Global, state: State, l: Lexeme<'_>) -> Result<Option<State>, AllocError>
    ensures { IfOk result (λ next. seen_next next ≡ spec.next (seen_state state) (seen_lexeme l.entry)) }
{
    match state {
        State::In { place, stack } => turn(alloc, place, stack, l),
        State::DoneTerm { .. } => Ok(None),
        State::DoneType { .. } => Ok(None),
    }
}

//! Where a token of a sort leads to.
ghost use Rattle.std.specs.Prelude.{◌≡◌, IfOk, [], ◌∷◌, ◌++◌, Some};
ghost use Rattle.pure_grammar.specs.Terms.InnerReader as spec;
ghost use Rattle.pure_read.specs.Seen.{seen_lexeme, seen_one};
ghost use Rattle.pure_read.specs.Frames.{seen_stack};
ghost use Rattle.pure_read.specs.States.{seen_next};

use crate::frame::Stack;
use crate::lexeme::{Lexeme, Written, is_mark, name_in};
use crate::raw::RawClass;
use crate::state::{Place, State, goes};
use crate::typ::variable_type;
use pure_grammar::Mark;
use std::alloc::{AllocError, Global};

/// The classes with one more.
fn with_class(classes: Vec<RawClass>, written: Written) -> Result<Vec<RawClass>, AllocError>
    ensures { IfOk result (λ all. all.items ≡ classes.items ++ spec.written_class (seen_one written) ∷ []) }
{
    let mut classes = classes;
    classes.push(RawClass {
        at: written.at,
        name: written.text,
    })?;
    Ok(classes)
}

/// Behind a variable that has its classes.
fn sorted(variable: Written, classes: Vec<RawClass>, stack: Stack) -> Option<State>
    ensures { seen_next result ≡ Some (spec.In (spec.AfterPost variable.at (spec.variable_type (seen_one variable) classes.items)) (seen_stack stack)) }
{
    let at = variable.at;
    let typ = variable_type(variable, classes);
    goes(Place::AfterPost { at, typ }, stack)
}

/// Behind the `::` of a variable.
pub(crate) fn at_sort(
    alloc: Global,
    variable: Written,
    stack: Stack,
    l: Lexeme<'_>,
) -> Result<Option<State>, AllocError>
    ensures { IfOk result (λ next. seen_next next ≡ spec.at_sort (seen_one variable) (seen_stack stack) (seen_lexeme l.entry)) }
{
    if is_mark(Mark::OpenBrace, l) {
        return Ok(goes(Place::AtFirstClass { variable }, stack));
    }
    match name_in(alloc, l)? {
        Some(written) => {
            let classes = with_class(Vec::new(alloc), written)?;
            Ok(sorted(variable, classes, stack))
        }
        None => Ok(None),
    }
}

/// Behind the brace of a sort.
pub(crate) fn at_first_class(
    alloc: Global,
    variable: Written,
    stack: Stack,
    l: Lexeme<'_>,
) -> Result<Option<State>, AllocError>
    ensures { IfOk result (λ next. seen_next next ≡ spec.at_first_class (seen_one variable) (seen_stack stack) (seen_lexeme l.entry)) }
{
    if is_mark(Mark::CloseBrace, l) {
        return Ok(sorted(variable, Vec::new(alloc), stack));
    }
    match name_in(alloc, l)? {
        Some(written) => {
            let classes = with_class(Vec::new(alloc), written)?;
            Ok(goes(Place::AfterClass { variable, classes }, stack))
        }
        None => Ok(None),
    }
}

/// Behind a class in braces.
pub(crate) fn after_class(
    variable: Written,
    classes: Vec<RawClass>,
    stack: Stack,
    l: Lexeme<'_>,
) -> Option<State>
    ensures { seen_next result ≡ spec.after_class (seen_one variable) classes.items (seen_stack stack) (seen_lexeme l.entry) }
{
    if is_mark(Mark::Comma, l) {
        return goes(Place::AtNextClass { variable, classes }, stack);
    }
    if is_mark(Mark::CloseBrace, l) {
        return sorted(variable, classes, stack);
    }
    None
}

/// Behind the comma between classes.
pub(crate) fn at_next_class(
    alloc: Global,
    variable: Written,
    classes: Vec<RawClass>,
    stack: Stack,
    l: Lexeme<'_>,
) -> Result<Option<State>, AllocError>
    ensures { IfOk result (λ next. seen_next next ≡ spec.turn (spec.AtNextClass (seen_one variable) classes.items) (seen_stack stack) (seen_lexeme l.entry)) }
{
    match name_in(alloc, l)? {
        Some(written) => {
            let classes = with_class(classes, written)?;
            Ok(goes(Place::AfterClass { variable, classes }, stack))
        }
        None => Ok(None),
    }
}

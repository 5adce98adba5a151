//! Declarations of classes. The classes above are read in place, so that no token moves them.
ghost use Rattle.std.specs.Prelude.{◌≡◌, IfOk};
ghost use Rattle.pure_grammar.specs.Theories.TheoryText.{Class};
ghost use Rattle.pure_grammar.specs.Theories.Reader as spec;
ghost use Rattle.pure_script.specs.Places.{seen_turn, seen_class, seen_class_course, any_turn};
ghost use Rattle.pure_script.specs.Lexemes.{seen_lexeme};

use crate::lexeme::{Lexeme, is_sign};
use crate::place::{
    AbovePlace, Course, NewClass, Place, RestPlace, Turn, command_begun, ident, leave_with, name,
};
use crate::theory::Command;
use pure_grammar::Sign;
use std::alloc::{AllocError, Global};

/// Behind `class`.
pub(crate) fn at_class_name(alloc: Global, lexeme: Lexeme<'_>) -> Result<Turn, AllocError>
    ensures { IfOk result (λ turn. seen_turn turn ≡ any_turn spec.AtClassName (seen_lexeme lexeme.entry)) }
{
    match ident(alloc, lexeme)? {
        None => Ok(Turn::Refuses),
        Some(name) => {
            let above = Vec::new(alloc);
            let class = NewClass { name, above };
            let place = AbovePlace::AfterClassName;
            Ok(Turn::Moves {
                place: Place::AtRest {
                    place: RestPlace::InClass { class, place },
                },
            })
        }
    }
}

/// Behind the name of the class.
fn after_class_name(
    alloc: Global,
    class: &mut NewClass,
    place: &mut AbovePlace,
    lexeme: Lexeme<'_>,
) -> Course
    ensures { seen_class_course result class.new place.new (seen_lexeme lexeme.entry) ≡ any_turn (spec.AfterClassName class.old.name) (seen_lexeme lexeme.entry) }
{
    class.above = Vec::new(alloc);
    if is_sign(Sign::Less, lexeme) {
        *place = AbovePlace::AtAbove;
        return Course::Stays;
    }
    Course::Ends
}

/// Behind `<`.
fn at_above(
    alloc: Global,
    class: &mut NewClass,
    place: &mut AbovePlace,
    lexeme: Lexeme<'_>,
) -> Result<Course, AllocError>
    ensures { IfOk result (λ course. seen_class_course course class.new place.new (seen_lexeme lexeme.entry) ≡ any_turn (spec.AtAbove class.old.name) (seen_lexeme lexeme.entry)) }
{
    match name(alloc, lexeme)? {
        None => Ok(Course::Refuses),
        Some(first) => {
            let mut above = Vec::new(alloc);
            above.push(first)?;
            class.above = above;
            *place = AbovePlace::AfterAbove;
            Ok(Course::Stays)
        }
    }
}

/// Behind a class above.
fn after_above(
    alloc: Global,
    class: &mut NewClass,
    place: &mut AbovePlace,
    lexeme: Lexeme<'_>,
) -> Result<Course, AllocError>
    ensures { IfOk result (λ course. seen_class_course course class.new place.new (seen_lexeme lexeme.entry) ≡ any_turn (spec.AfterAbove class.old.name class.old.above.items) (seen_lexeme lexeme.entry)) }
{
    match name(alloc, lexeme)? {
        None => Ok(Course::Ends),
        Some(next) => {
            class.above.push(next)?;
            *place = AbovePlace::AfterAbove;
            Ok(Course::Stays)
        }
    }
}

/// How a token behind the name of a class goes on, with its place and what is read in place.
#[inline(never)]
pub(crate) fn class_course(
    alloc: Global,
    class: &mut NewClass,
    place: &mut AbovePlace,
    lexeme: Lexeme<'_>,
) -> Result<Course, AllocError>
    ensures { IfOk result (λ course. seen_class_course course class.new place.new (seen_lexeme lexeme.entry) ≡ any_turn (seen_class class.old place.old) (seen_lexeme lexeme.entry)) }
{
    match *place {
        AbovePlace::AfterClassName => Ok(after_class_name(alloc, class, place, lexeme)),
        AbovePlace::AtAbove => at_above(alloc, class, place, lexeme),
        AbovePlace::AfterAbove => after_above(alloc, class, place, lexeme),
    }
}

/// The class, which is read, and the place that the token behind it begins.
pub(crate) fn declared(class: NewClass, lexeme: Lexeme<'_>) -> Turn
    ensures { seen_turn result ≡ spec.leave_with (Class class.name class.above.items) (spec.command_begun (seen_lexeme lexeme.entry)) }
{
    let NewClass { name, above } = class;
    leave_with(Command::Class { name, above }, command_begun(lexeme))
}

//! Where a token of a type leads to.
ghost use Rattle.std.specs.Prelude.{◌≡◌, IfOk, Some, None, [], ◌∷◌, ◌++◌};
ghost use Rattle.pure_grammar.specs.declared.inner.Mark.TheVariants as mark;
ghost use Rattle.pure_grammar.specs.Terms.InnerReader as spec;
ghost use Rattle.pure_grammar.specs.Terms.RawTree as tree;
ghost use Rattle.pure_read.specs.Seen.{seen_lexeme, seen_one};
ghost use Rattle.pure_read.specs.Frames.{seen_frame, seen_quantifier, seen_stack, seen_type_open};
ghost use Rattle.pure_read.specs.States.{seen_next, seen_state};
ghost use Rattle.pure_read.specs.Parts.{seen_type_part};

use crate::binder::{body_place, bound};
use crate::frame::{Binder, Frame, Popped, Stack, TypeOpen};
use crate::lexeme::{Lexeme, Written, is_end, is_mark, name_in, opening_at, variable_in};
use crate::raw::{Raw, RawClass, RawTyp};
use crate::state::{Place, State, goes, goes_if, type_inside};
use crate::term::con_ends;
use pure_grammar::{Mark, Opening};
use std::alloc::{AllocError, Global};

/// A type that is read, where it begins, and what stands open round it.
#[derive(Drop)]
pub(crate) struct TypePart {
    pub(crate) at: u32,
    pub(crate) typ: RawTyp,
    pub(crate) stack: Stack,
}

/// The variable with these classes.
pub(crate) fn variable_type(written: Written, classes: Vec<RawClass>) -> RawTyp
    ensures { result ≡ spec.variable_type (seen_one written) classes.items }
{
    RawTyp::var(written.at, written.kind, written.text, classes)
}

/// The type, which this frame does not end.
fn kept(at: u32, typ: RawTyp, below: Stack, frame: Frame) -> Result<TypePart, AllocError>
    ensures { IfOk result (λ part. seen_type_part part ≡ record { at = at; typ = typ; stack = seen_frame frame ∷ seen_stack below }) }
{
    let stack = below.with(frame)?;
    Ok(TypePart { at, typ, stack })
}

/// The type with all right sides of `=>`, which end with it.
fn ranged(alloc: Global, at: u32, typ: RawTyp, stack: Stack) -> Result<TypePart, AllocError>
    ensures { IfOk result (λ part. seen_type_part part ≡ spec.ranged at typ (seen_stack stack)) }
{
    let mut at = at;
    let mut typ = typ;
    let mut stack = stack;
    'arrows: loop {
        let Popped::Open { frame, below } = stack.pop() else {
            let stack = Stack::empty(alloc);
            return Ok(TypePart { at, typ, stack });
        };
        match frame {
            Frame::Joined { join } => return kept(at, typ, below, Frame::Joined { join }),
            Frame::InTerm { around } => return kept(at, typ, below, Frame::InTerm { around }),
            Frame::Range { at: whole, domain } => {
                at = whole;
                typ = RawTyp::arrow(alloc, whole, domain, typ)?;
                stack = below;
            }
            Frame::InType { around } => return kept(at, typ, below, Frame::InType { around }),
        }
    }
}

/// Behind a domain in a list.
fn domain_ends(
    at: u32,
    domain: RawTyp,
    stack: Stack,
    l: Lexeme<'_>,
) -> Result<Option<State>, AllocError>
    ensures { IfOk result (λ next. seen_next next ≡ spec.domain_ends (spec.Range at domain ∷ seen_stack stack) (seen_lexeme l.entry)) }
{
    let stack = stack.with(Frame::Range { at, domain })?;
    if is_mark(Mark::Comma, l) {
        return type_inside(stack, TypeOpen::NextDomain);
    }
    if is_mark(Mark::CloseBracket, l) {
        return Ok(goes(Place::AtArrow, stack));
    }
    Ok(None)
}

/// Behind the first type in parentheses.
fn enclosed_ends(
    alloc: Global,
    at: u32,
    typ: RawTyp,
    stack: Stack,
    l: Lexeme<'_>,
) -> Result<Option<State>, AllocError>
    ensures { IfOk result (λ next. seen_next next ≡ spec.argument_ends at (typ ∷ []) (spec.In (spec.AfterPost at typ) (seen_stack stack)) (seen_stack stack) (seen_lexeme l.entry)) }
{
    if is_mark(Mark::Comma, l) {
        let mut arguments = Vec::new(alloc);
        arguments.push(typ)?;
        return type_inside(stack, TypeOpen::MoreArguments { at, arguments });
    }
    if is_mark(Mark::CloseParenthesis, l) {
        return Ok(goes(Place::AfterPost { at, typ }, stack));
    }
    Ok(None)
}

/// Behind a further type in parentheses, with these arguments up to it.
fn argument_ends(
    at: u32,
    arguments: Vec<RawTyp>,
    stack: Stack,
    l: Lexeme<'_>,
) -> Result<Option<State>, AllocError>
    ensures { IfOk result (λ next. seen_next next ≡ spec.argument_ends at arguments.items (spec.In (spec.AtConstructor at arguments.items) (seen_stack stack)) (seen_stack stack) (seen_lexeme l.entry)) }
{
    if is_mark(Mark::Comma, l) {
        return type_inside(stack, TypeOpen::MoreArguments { at, arguments });
    }
    if is_mark(Mark::CloseParenthesis, l) {
        return Ok(goes(Place::AtConstructor { at, arguments }, stack));
    }
    Ok(None)
}

/// Behind the type of a binder in parentheses.
fn binder_ends(
    binder: Binder,
    typ: RawTyp,
    stack: Stack,
    l: Lexeme<'_>,
) -> Result<Option<State>, AllocError>
    ensures { IfOk result (λ next. seen_next next ≡ spec.goes_if (spec.is_mark mark.CloseParenthesis (seen_lexeme l.entry)) (spec.In (spec.AfterBinder (seen_quantifier binder.quantifier)) (spec.bound (seen_quantifier binder.quantifier) binder.at binder.binder binder.var (Some typ) ∷ seen_stack stack))) }
{
    let quantifier = binder.quantifier;
    let stack = stack.with(bound(binder, Some(typ)))?;
    let place = Place::AfterBinder { quantifier };
    let closed = is_mark(Mark::CloseParenthesis, l);
    Ok(goes_if(closed, State::In { place, stack }))
}

/// Behind the type of the only binder.
fn only_binder_ends(
    binder: Binder,
    typ: RawTyp,
    stack: Stack,
    l: Lexeme<'_>,
) -> Result<Option<State>, AllocError>
    ensures { IfOk result (λ next. seen_next next ≡ spec.goes_if (spec.is_mark mark.Dot (seen_lexeme l.entry)) (spec.In (spec.body_place (seen_quantifier binder.quantifier)) (spec.bound (seen_quantifier binder.quantifier) binder.at binder.binder binder.var (Some typ) ∷ seen_stack stack))) }
{
    let quantifier = binder.quantifier;
    let stack = stack.with(bound(binder, Some(typ)))?;
    let place = body_place(quantifier);
    let dot = is_mark(Mark::Dot, l);
    Ok(goes_if(dot, State::In { place, stack }))
}

/// Behind a type, by what it stands in.
fn open_ends(
    alloc: Global,
    at: u32,
    typ: RawTyp,
    around: TypeOpen,
    stack: Stack,
    l: Lexeme<'_>,
) -> Result<Option<State>, AllocError>
    ensures { IfOk result (λ next. seen_next next ≡ spec.type_open_ends at typ (seen_type_open around) (seen_stack stack) (seen_lexeme l.entry)) }
{
    match around {
        TypeOpen::Constraint { at: whole, term } => {
            let typed = Raw::typed(alloc, whole, term, typ)?;
            con_ends(alloc, whole, typed, stack, l)
        }
        TypeOpen::BinderType { binder } => binder_ends(binder, typ, stack, l),
        TypeOpen::OnlyBinderType { binder } => only_binder_ends(binder, typ, stack, l),
        TypeOpen::FirstDomain { at: whole } => domain_ends(whole, typ, stack, l),
        TypeOpen::NextDomain => domain_ends(at, typ, stack, l),
        TypeOpen::EnclosedType { at: whole } => enclosed_ends(alloc, whole, typ, stack, l),
        TypeOpen::MoreArguments {
            at: whole,
            arguments,
        } => {
            let mut arguments = arguments;
            arguments.push(typ)?;
            argument_ends(whole, arguments, stack, l)
        }
    }
}

/// No text goes on behind this type in this frame.
fn refuses(_typ: RawTyp, frame: Frame) -> Option<State>
    ensures { seen_next result ≡ None }
{
    frame.discard();
    None
}

/// Behind a whole type.
fn part_ends(alloc: Global, part: TypePart, l: Lexeme<'_>) -> Result<Option<State>, AllocError>
    ensures { IfOk result (λ next. seen_next next ≡ spec.type_part_ends (seen_type_part part) (seen_lexeme l.entry)) }
{
    let TypePart { at, typ, stack } = part;
    match stack.pop() {
        Popped::Nothing => Ok(goes_if(is_end(l), State::DoneType { typ })),
        Popped::Open { frame, below } => match frame {
            Frame::Joined { join } => Ok(refuses(typ, Frame::Joined { join })),
            Frame::InTerm { around } => Ok(refuses(typ, Frame::InTerm { around })),
            Frame::Range { at, domain } => Ok(refuses(typ, Frame::Range { at, domain })),
            Frame::InType { around } => open_ends(alloc, at, typ, around, below, l),
        },
    }
}

/// Behind a type without arrows.
fn type_ends(
    alloc: Global,
    at: u32,
    typ: RawTyp,
    stack: Stack,
    l: Lexeme<'_>,
) -> Result<Option<State>, AllocError>
    ensures { IfOk result (λ next. seen_next next ≡ spec.type_ends at typ (seen_stack stack) (seen_lexeme l.entry)) }
{
    if is_mark(Mark::Arrow, l) {
        let stack = stack.with(Frame::Range { at, domain: typ })?;
        return Ok(goes(Place::AtType, stack));
    }
    part_ends(alloc, ranged(alloc, at, typ, stack)?, l)
}

/// Behind a type that a constructor may follow.
pub(crate) fn after_post(
    alloc: Global,
    at: u32,
    typ: RawTyp,
    stack: Stack,
    l: Lexeme<'_>,
) -> Result<Option<State>, AllocError>
    ensures { IfOk result (λ next. seen_next next ≡ spec.after_post at typ (seen_stack stack) (seen_lexeme l.entry)) }
{
    match name_in(alloc, l)? {
        Some(written) => {
            let typ = RawTyp::applied(alloc, at, written.text, typ)?;
            Ok(goes(Place::AfterPost { at, typ }, stack))
        }
        None => type_ends(alloc, at, typ, stack, l),
    }
}

/// Behind a type variable, which a sort may follow.
pub(crate) fn after_variable(
    alloc: Global,
    variable: Written,
    stack: Stack,
    l: Lexeme<'_>,
) -> Result<Option<State>, AllocError>
    ensures { IfOk result (λ next. seen_next next ≡ spec.after_variable (seen_one variable) (seen_stack stack) (seen_lexeme l.entry)) }
{
    if is_mark(Mark::DoubleColon, l) {
        return Ok(goes(Place::AtSort { variable }, stack));
    }
    let at = variable.at;
    let typ = variable_type(variable, Vec::new(alloc));
    after_post(alloc, at, typ, stack, l)
}

/// The first token of a type that begins with a name.
fn name_begun(alloc: Global, stack: Stack, l: Lexeme<'_>) -> Result<Option<State>, AllocError>
    ensures { IfOk result (λ next. seen_next next ≡ spec.name_begun (seen_stack stack) (seen_lexeme l.entry)) }
{
    match variable_in(alloc, l)? {
        Some(variable) => Ok(goes(Place::AfterVariable { variable }, stack)),
        None => match name_in(alloc, l)? {
            Some(written) => {
                let at = written.at;
                let typ = RawTyp::con(at, written.text, Vec::new(alloc));
                Ok(goes(Place::AfterPost { at, typ }, stack))
            }
            None => Ok(None),
        },
    }
}

/// The first token of a type.
pub(crate) fn type_begun(
    alloc: Global,
    stack: Stack,
    l: Lexeme<'_>,
) -> Result<Option<State>, AllocError>
    ensures { IfOk result (λ next. seen_next next ≡ spec.type_begun (seen_stack stack) (seen_lexeme l.entry)) }
{
    match opening_at(Opening::Bracket, l) {
        Some(at) => {
            let around = TypeOpen::FirstDomain { at };
            type_inside(stack, around)
        }
        None => match opening_at(Opening::Parenthesis, l) {
            Some(at) => {
                let around = TypeOpen::EnclosedType { at };
                type_inside(stack, around)
            }
            None => name_begun(alloc, stack, l),
        },
    }
}

/// Behind the parenthesis that closes arguments.
pub(crate) fn at_constructor(
    alloc: Global,
    at: u32,
    arguments: Vec<RawTyp>,
    stack: Stack,
    l: Lexeme<'_>,
) -> Result<Option<State>, AllocError>
    ensures { IfOk result (λ next. seen_next next ≡ spec.turn (spec.AtConstructor at arguments.items) (seen_stack stack) (seen_lexeme l.entry)) }
{
    match name_in(alloc, l)? {
        Some(written) => {
            let typ = RawTyp::con(at, written.text, arguments);
            Ok(goes(Place::AfterPost { at, typ }, stack))
        }
        None => Ok(None),
    }
}

//! Where a token of a term leads to.
ghost use Rattle.std.specs.Prelude.{◌≡◌, IfOk, ◌∷◌, Some, None};
ghost use Rattle.pure_grammar.specs.Terms.InnerReader as spec;
ghost use Rattle.pure_read.specs.Seen.{seen_lexeme, seen_one};
ghost use Rattle.pure_read.specs.Frames.{seen_frame, seen_stack, seen_term_open};
ghost use Rattle.pure_read.specs.States.{seen_next};
ghost use Rattle.pure_read.specs.Parts.{seen_term_part};

use crate::frame::{Frame, Join, Popped, Quantifier, Stack, TermOpen, TypeOpen};
use crate::lexeme::{Lexeme, Written, is_end, is_mark, leaf_in, opening_at};
use crate::raw::Raw;
use crate::state::{Place, State, goes, goes_if, term_inside, type_inside};
use pure_grammar::{Mark, Opening};
use std::alloc::{AllocError, Global};

/// A term that is read, where it begins, and what stands open round it.
#[derive(Drop)]
pub(crate) struct TermPart {
    pub(crate) at: u32,
    pub(crate) term: Box<Raw>,
    pub(crate) stack: Stack,
}

/// A name or a variable as a term.
fn leaf(alloc: Global, written: Written) -> Result<Box<Raw>, AllocError>
    ensures { IfOk result (λ t. t.value ≡ spec.leaf (seen_one written)) }
{
    Raw::leaf(alloc, written.at, written.kind, written.text)
}

/// The term, which no frame that is given ends.
fn kept(at: u32, term: Box<Raw>, below: Stack, frame: Frame) -> Result<TermPart, AllocError>
    ensures { IfOk result (λ part. seen_term_part part ≡ record { at = at; term = term.value; stack = seen_frame frame ∷ seen_stack below }) }
{
    let stack = below.with(frame)?;
    Ok(TermPart { at, term, stack })
}

/// The term with all that has at least this level, which ends with it.
pub(crate) fn reduced(
    alloc: Global,
    level: u8,
    at: u32,
    term: Box<Raw>,
    stack: Stack,
) -> Result<TermPart, AllocError>
    ensures { IfOk result (λ part. seen_term_part part ≡ spec.reduced level at term.value (seen_stack stack)) }
{
    let mut at = at;
    let mut term = term;
    let mut stack = stack;
    'joins: loop {
        let Popped::Open { frame, below } = stack.pop() else {
            let stack = Stack::empty(alloc);
            return Ok(TermPart { at, term, stack });
        };
        match frame {
            Frame::Joined { join } => {
                if level > join.level() {
                    return kept(at, term, below, Frame::Joined { join });
                }
                at = join.at();
                term = join.term(alloc, term)?;
                stack = below;
            }
            Frame::InTerm { around } => return kept(at, term, below, Frame::InTerm { around }),
            Frame::Range { at: whole, domain } => {
                return kept(at, term, below, Frame::Range { at: whole, domain });
            }
            Frame::InType { around } => return kept(at, term, below, Frame::InType { around }),
        }
    }
}

/// Behind the left side of an equation.
fn at_right_side(at: u32, left: Box<Raw>, stack: Stack) -> Result<Option<State>, AllocError>
    ensures { IfOk result (λ next. seen_next next ≡ Some (spec.In spec.AtCon (spec.Joined (spec.RightSide at left.value) ∷ seen_stack stack))) }
{
    let join = Join::RightSide { at, left };
    let stack = stack.with(Frame::Joined { join })?;
    Ok(goes(Place::AtCon, stack))
}

/// Behind `==`, which no right side takes.
fn equals(alloc: Global, part: TermPart) -> Result<Option<State>, AllocError>
    ensures { IfOk result (λ next. seen_next next ≡ spec.equals (seen_term_part part)) }
{
    let TermPart { at, term, stack } = part;
    match stack.pop() {
        Popped::Nothing => at_right_side(at, term, Stack::empty(alloc)),
        Popped::Open { frame, below } => {
            if frame.is_right_side() {
                frame.discard();
                return Ok(None);
            }
            at_right_side(at, term, below.with(frame)?)
        }
    }
}

/// Behind `==>`.
fn implies(part: TermPart) -> Result<Option<State>, AllocError>
    ensures { IfOk result (λ next. seen_next next ≡ spec.implies (seen_term_part part)) }
{
    let join = Join::Conclusion {
        at: part.at,
        premise: part.term,
    };
    let stack = part.stack.with(Frame::Joined { join })?;
    Ok(goes(Place::AtTerm, stack))
}

/// Behind a premise in a list.
fn premise_ends(
    at: u32,
    premise: Box<Raw>,
    stack: Stack,
    l: Lexeme<'_>,
) -> Result<Option<State>, AllocError>
    ensures { IfOk result (λ next. seen_next next ≡ spec.premise_ends (spec.Joined (spec.Conclusion at premise.value) ∷ seen_stack stack) (seen_lexeme l.entry)) }
{
    let join = Join::Conclusion { at, premise };
    let stack = stack.with(Frame::Joined { join })?;
    if is_mark(Mark::Semicolon, l) {
        return term_inside(stack, TermOpen::NextPremise);
    }
    if is_mark(Mark::ClosePremises, l) {
        return Ok(goes(Place::AtImplies, stack));
    }
    Ok(None)
}

/// Behind a term in a list of premises or in parentheses.
fn open_ends(
    alloc: Global,
    at: u32,
    term: Box<Raw>,
    around: TermOpen,
    stack: Stack,
    l: Lexeme<'_>,
) -> Result<Option<State>, AllocError>
    ensures { IfOk result (λ next. seen_next next ≡ spec.open_ends at term.value (seen_term_open around) (seen_stack stack) (seen_lexeme l.entry)) }
{
    let closed = is_mark(Mark::CloseParenthesis, l);
    match around {
        TermOpen::FirstPremise { at: whole } => premise_ends(whole, term, stack, l),
        TermOpen::NextPremise => premise_ends(at, term, stack, l),
        TermOpen::Enclosed { at: whole } => {
            let place = Place::AfterAtom {
                at: whole,
                app: term,
            };
            Ok(goes_if(closed, State::In { place, stack }))
        }
        TermOpen::Argument {
            at: whole,
            function,
        } => {
            let app = Raw::app(alloc, whole, function, term)?;
            let place = Place::AfterAtom { at: whole, app };
            Ok(goes_if(closed, State::In { place, stack }))
        }
    }
}

/// No text goes on behind a term in this frame.
fn refuses(frame: Frame) -> Option<State>
    ensures { seen_next result ≡ None }
{
    frame.discard();
    None
}

/// Behind a whole term.
fn part_ends(alloc: Global, part: TermPart, l: Lexeme<'_>) -> Result<Option<State>, AllocError>
    ensures { IfOk result (λ next. seen_next next ≡ spec.part_ends (seen_term_part part) (seen_lexeme l.entry)) }
{
    let TermPart { at, term, stack } = part;
    match stack.pop() {
        Popped::Nothing => Ok(goes_if(is_end(l), State::DoneTerm { term })),
        Popped::Open { frame, below } => match frame {
            Frame::Joined { join } => Ok(refuses(Frame::Joined { join })),
            Frame::InTerm { around } => open_ends(alloc, at, term, around, below, l),
            Frame::Range { at, domain } => Ok(refuses(Frame::Range { at, domain })),
            Frame::InType { around } => Ok(refuses(Frame::InType { around })),
        },
    }
}

/// Behind an application, a constraint or an abstraction.
pub(crate) fn con_ends(
    alloc: Global,
    at: u32,
    term: Box<Raw>,
    stack: Stack,
    l: Lexeme<'_>,
) -> Result<Option<State>, AllocError>
    ensures { IfOk result (λ next. seen_next next ≡ spec.con_ends at term.value (seen_stack stack) (seen_lexeme l.entry)) }
{
    if is_mark(Mark::Equals, l) {
        return equals(alloc, reduced(alloc, 3, at, term, stack)?);
    }
    if is_mark(Mark::Implies, l) {
        return implies(reduced(alloc, 2, at, term, stack)?);
    }
    part_ends(alloc, reduced(alloc, 1, at, term, stack)?, l)
}

/// Behind an application, which a type may follow.
fn after_leaf(
    alloc: Global,
    at: u32,
    function: Box<Raw>,
    stack: Stack,
    l: Lexeme<'_>,
) -> Result<Option<State>, AllocError>
    ensures { IfOk result (λ next. seen_next next ≡ spec.after_leaf at function.value (seen_stack stack) (seen_lexeme l.entry)) }
{
    if is_mark(Mark::DoubleColon, l) {
        return type_inside(stack, TypeOpen::Constraint { at, term: function });
    }
    con_ends(alloc, at, function, stack, l)
}

/// Behind an atom, which another one may follow.
pub(crate) fn after_atom(
    alloc: Global,
    at: u32,
    function: Box<Raw>,
    stack: Stack,
    l: Lexeme<'_>,
) -> Result<Option<State>, AllocError>
    ensures { IfOk result (λ next. seen_next next ≡ spec.after_atom at function.value (seen_stack stack) (seen_lexeme l.entry)) }
{
    match opening_at(Opening::Parenthesis, l) {
        Some(_) => {
            let around = TermOpen::Argument { at, function };
            term_inside(stack, around)
        }
        None => match leaf_in(alloc, l)? {
            Some(written) => {
                let argument = leaf(alloc, written)?;
                let app = Raw::app(alloc, at, function, argument)?;
                Ok(goes(Place::AfterAtom { at, app }, stack))
            }
            None => after_leaf(alloc, at, function, stack, l),
        },
    }
}

/// The first token of an application.
fn atom_begun(alloc: Global, stack: Stack, l: Lexeme<'_>) -> Result<Option<State>, AllocError>
    ensures { IfOk result (λ next. seen_next next ≡ spec.atom_begun (seen_stack stack) (seen_lexeme l.entry)) }
{
    match opening_at(Opening::Parenthesis, l) {
        Some(at) => {
            let around = TermOpen::Enclosed { at };
            term_inside(stack, around)
        }
        None => match leaf_in(alloc, l)? {
            Some(written) => {
                let at = written.at;
                let app = leaf(alloc, written)?;
                Ok(goes(Place::AfterAtom { at, app }, stack))
            }
            None => Ok(None),
        },
    }
}

/// The first token of a side of an equation.
pub(crate) fn con_begun(
    alloc: Global,
    stack: Stack,
    l: Lexeme<'_>,
) -> Result<Option<State>, AllocError>
    ensures { IfOk result (λ next. seen_next next ≡ spec.con_begun (seen_stack stack) (seen_lexeme l.entry)) }
{
    match opening_at(Opening::Lambda, l) {
        Some(at) => {
            let quantifier = Quantifier::Lambda;
            Ok(goes(Place::AtBinder { quantifier, at }, stack))
        }
        None => atom_begun(alloc, stack, l),
    }
}

/// The first token of a term.
pub(crate) fn term_begun(
    alloc: Global,
    stack: Stack,
    l: Lexeme<'_>,
) -> Result<Option<State>, AllocError>
    ensures { IfOk result (λ next. seen_next next ≡ spec.term_begun (seen_stack stack) (seen_lexeme l.entry)) }
{
    match opening_at(Opening::All, l) {
        Some(at) => {
            let quantifier = Quantifier::All;
            Ok(goes(Place::AtBinder { quantifier, at }, stack))
        }
        None => match opening_at(Opening::Premises, l) {
            Some(at) => {
                let around = TermOpen::FirstPremise { at };
                term_inside(stack, around)
            }
            None => con_begun(alloc, stack, l),
        },
    }
}

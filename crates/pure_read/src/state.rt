//! The places of a text of terms and types.
ghost use Rattle.std.specs.Prelude.{◌≡◌, ◌∷◌, IfOk, Some};
ghost use Rattle.pure_grammar.specs.Terms.InnerReader as spec;
ghost use Rattle.pure_read.specs.Frames.{seen_stack, seen_term_open, seen_type_open};
ghost use Rattle.pure_read.specs.States.{seen_place, seen_state, seen_next};

use crate::frame::{Binder, Frame, Quantifier, Stack, TermOpen, TypeOpen};
use crate::lexeme::Written;
use crate::raw::{Raw, RawClass, RawTyp};
use std::alloc::AllocError;

/// A place in the text, with what was read of the part that it is in.
#[derive(Drop)]
pub(crate) enum Place {
    AtTerm,
    AtCon,
    AfterAtom {
        at: u32,
        app: Box<Raw>,
    },
    AtImplies,
    AtBinder {
        quantifier: Quantifier,
        at: u32,
    },
    AfterFirstVar {
        binder: Binder,
    },
    AfterBinder {
        quantifier: Quantifier,
    },
    AtBinderVar {
        quantifier: Quantifier,
        at: u32,
        binder: u32,
    },
    AfterBinderVar {
        binder: Binder,
    },
    AtType,
    AfterVariable {
        variable: Written,
    },
    AtSort {
        variable: Written,
    },
    AtFirstClass {
        variable: Written,
    },
    AfterClass {
        variable: Written,
        classes: Vec<RawClass>,
    },
    AtNextClass {
        variable: Written,
        classes: Vec<RawClass>,
    },
    AfterPost {
        at: u32,
        typ: RawTyp,
    },
    AtConstructor {
        at: u32,
        arguments: Vec<RawTyp>,
    },
    AtArrow,
}

/// A place with what stands open, or all is read.
#[derive(Drop)]
pub(crate) enum State {
    In { place: Place, stack: Stack },
    DoneTerm { term: Box<Raw> },
    DoneType { typ: RawTyp },
}

/// To the place.
pub(crate) fn goes(place: Place, stack: Stack) -> Option<State>
    ensures { seen_next result ≡ Some (spec.In (seen_place place) (seen_stack stack)) }
{
    Some(State::In { place, stack })
}

/// To a term that stands in this.
pub(crate) fn term_inside(stack: Stack, around: TermOpen) -> Result<Option<State>, AllocError>
    ensures { IfOk result (λ next. seen_next next ≡ Some (spec.In spec.AtTerm (spec.InTerm (seen_term_open around) ∷ seen_stack stack))) }
{
    let stack = stack.with(Frame::InTerm { around })?;
    Ok(goes(Place::AtTerm, stack))
}

/// To a type that stands in this.
pub(crate) fn type_inside(stack: Stack, around: TypeOpen) -> Result<Option<State>, AllocError>
    ensures { IfOk result (λ next. seen_next next ≡ Some (spec.In spec.AtType (spec.InType (seen_type_open around) ∷ seen_stack stack))) }
{
    let stack = stack.with(Frame::InType { around })?;
    Ok(goes(Place::AtType, stack))
}

/// Drops the place. Apart, since each function that drops one itself pays for all its variants.
pub(crate) fn discard(_place: Place) {}

/// Drops the state.
fn discard_state(state: State) {
    match state {
        State::In { place, .. } => discard(place),
        State::DoneTerm { .. } => {}
        State::DoneType { .. } => {}
    }
}

/// To the state, if so.
pub(crate) fn goes_if(so: bool, state: State) -> Option<State>
    ensures { seen_next result ≡ spec.goes_if so (seen_state state) }
{
    if so {
        return Some(state);
    }
    discard_state(state);
    None
}

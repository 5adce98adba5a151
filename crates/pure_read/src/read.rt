//! The trees of tokens.
ghost use Rattle.std.specs.Prelude.{◌≡◌, ◌<◌, ◌≤◌, ◌↔◌, length, IfOk, IfErr, Err, Some, true};
ghost use Rattle.pure_grammar.specs.Terms.Inner.{SpellsTerm, SpellsType};
ghost use Rattle.pure_grammar.specs.Terms.InnerLexeme.{inners};
ghost use Rattle.pure_grammar.specs.Terms.InnerReader as spec;
ghost use Rattle.pure_grammar.specs.Tokens.Spelling.{AreSlices};
ghost use Rattle.pure_read.specs.States.{seen_state};
ghost use Rattle.pure_read.specs.Stuck.{IsStuckAs, IsTooLong, IsTermFaultOf, IsTypeFaultOf};

use crate::frame::Stack;
use crate::lexeme::{Lexeme, lexeme_of};
use crate::raw::{Raw, RawTyp};
use crate::state::{Place, State, discard};
use crate::turn::next;
use pure_grammar::Token;
use std::alloc::{AllocError, Global};

/// How many tokens a text may have.
pub const MAX_TOKENS: usize = 1000;

/// Why tokens have no tree: there are more than `MAX_TOKENS` of them, or where their first fault of syntax stands. `Memory` is
/// want of memory.
#[derive(Clone, Copy, Debug, PartialEq, Eq)]
pub enum RawFault {
    TooLong,
    Syntax { at: u32 },
    Memory,
}

impl From<AllocError> for RawFault {
    ghost use Rattle.pure_read.specs.declared.read.RawFault.TheVariants.{Memory};

    ghost from_gives = { λ _ fault. fault ≡ Memory };

    fn from(_failed: AllocError) -> RawFault {
        RawFault::Memory
    }
}

/// The fault of a text that goes on behind its end.
fn end_fault(source: &[u8]) -> RawFault
    requires { length source.now < 4294967296 }
    ensures { result ≡ RawFault.Syntax (length source.now) }
{
    RawFault::Syntax {
        at: source.len() as u32,
    }
}

/// The state behind all tokens and their end.
fn run(alloc: Global, start: State, source: &[u8], tokens: &[Token]) -> Result<State, RawFault>
    requires small { length source.now < 4294967296 }
    requires slices { AreSlices source.now 0 (length source.now) tokens.now }
    ensures ok { IfOk result (λ state. spec.run (seen_state start) (inners source.now tokens.now) ≡ Some (seen_state state)) }
    ensures done { IfOk result (λ state. spec.is_done (seen_state state) ≡ true) }
    ensures fault { IfErr result (IsStuckAs (seen_state start) source.now tokens.now) }
{
    let mut state = start;
    for token in tokens {
        match next(alloc, state, lexeme_of(source, *token))? {
            None => return Err(RawFault::Syntax { at: token.from }),
            Some(behind) => {
                state = behind;
            }
        }
    }
    match next(alloc, state, Lexeme::Ends)? {
        None => Err(end_fault(source)),
        Some(behind) => Ok(behind),
    }
}

/// The tree of the term that the tokens of the source spell, or where the first fault stands: the first token with which
/// no term goes on, or the source's end. More than `MAX_TOKENS` are not read.
pub fn read_raw(alloc: Global, source: &[u8], tokens: &[Token]) -> Result<Raw, RawFault>
    requires small { length source.now < 4294967296 }
    requires slices { AreSlices source.now 0 (length source.now) tokens.now }
    ensures too_long { (result ≡ Err RawFault.TooLong) ↔ IsTooLong tokens.now }
    ensures ok { IfOk result (λ raw. SpellsTerm source.now tokens.now raw) }
    ensures fault { IfErr result (IsTermFaultOf source.now tokens.now) }
{
    if tokens.len() > MAX_TOKENS {
        return Err(RawFault::TooLong);
    }
    let place = Place::AtTerm;
    let stack = Stack::empty(alloc);
    match run(alloc, State::In { place, stack }, source, tokens) {
        Err(fault) => Err(fault),
        Ok(State::DoneTerm { term }) => Ok(Box::into_inner(term)),
        Ok(State::DoneType { .. }) => Err(end_fault(source)),
        Ok(State::In { place, .. }) => {
            discard(place);
            Err(end_fault(source))
        }
    }
}

/// The tree of the type that the tokens of the source spell, or where the first fault stands: the first token with which
/// no type goes on, or the source's end. More than `MAX_TOKENS` are not read.
pub fn read_raw_typ(alloc: Global, source: &[u8], tokens: &[Token]) -> Result<RawTyp, RawFault>
    requires small { length source.now < 4294967296 }
    requires slices { AreSlices source.now 0 (length source.now) tokens.now }
    ensures too_long { (result ≡ Err RawFault.TooLong) ↔ IsTooLong tokens.now }
    ensures ok { IfOk result (λ typ. SpellsType source.now tokens.now typ) }
    ensures fault { IfErr result (IsTypeFaultOf source.now tokens.now) }
{
    if tokens.len() > MAX_TOKENS {
        return Err(RawFault::TooLong);
    }
    let place = Place::AtType;
    let stack = Stack::empty(alloc);
    match run(alloc, State::In { place, stack }, source, tokens) {
        Err(fault) => Err(fault),
        Ok(State::DoneType { typ }) => Ok(typ),
        Ok(State::DoneTerm { .. }) => Err(end_fault(source)),
        Ok(State::In { place, .. }) => {
            discard(place);
            Err(end_fault(source))
        }
    }
}

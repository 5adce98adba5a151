//! Whether lexemes are a record.
ghost use Rattle.std.specs.Prelude.{◌≡◌, reverse, IfOk};
ghost use Rattle.pure_record.specs.Machine.{IsPart, IsStep, IsRecognised};

use crate::lexeme::Lexeme;
use crate::symbol::{Symbol, opened, passes};
use std::alloc::{AllocError, Global};

/// Takes off the part that comes next, which stands last, behind those that are left out.
fn part(stack: &mut Vec<Symbol>, lexeme: Lexeme) -> Option<Symbol>
    ensures { IsPart (reverse stack.old.items) lexeme result (reverse stack.new.items) }
{
    while let Some(top) = stack.pop() {
        if !passes(top, lexeme) {
            return Some(top);
        }
    }
    None
}

/// Takes a lexeme off what is to come; whether it may come.
fn step(stack: &mut Vec<Symbol>, lexeme: Lexeme) -> Result<bool, AllocError>
    ensures { IfOk result (λ on. IsStep on (reverse stack.old.items) lexeme (reverse stack.new.items)) }
{
    let Some(top) = part(stack, lexeme) else {
        return Ok(false);
    };
    let Some(more) = opened(top, lexeme) else {
        return Ok(false);
    };
    stack.extend_from_slice(more)?;
    Ok(true)
}

/// The place of the first lexeme with which no record goes on; none where the lexemes are a record.
pub(crate) fn recognised(alloc: Global, lexemes: &[Lexeme]) -> Result<Option<usize>, AllocError>
    ensures { IfOk result (IsRecognised lexemes.now) }
{
    let mut stack = Vec::new(alloc);
    stack.push(Symbol::Record)?;
    for (at, lexeme) in lexemes.iter().enumerate() {
        if !step(&mut stack, *lexeme)? {
            return Ok(Some(at));
        }
    }
    if !stack.is_empty() {
        return Err(AllocError);
    }
    Ok(None)
}

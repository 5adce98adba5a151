//! What the bytes of a theory's file say.
ghost use Rattle.std.specs.Prelude.{◌≡◌, ◌≤◌, length, IfErr, IfOk, None};
ghost use Rattle.pure_graph.specs.Limits.{most_bytes};
ghost use Rattle.pure_graph.specs.Outcome.{IsOwnOutcome, IsBytesOutcome, syntax_at};
ghost use Rattle.pure_graph.specs.Parsed.{IsParsed};
ghost use Rattle.pure_graph.specs.Seen.{seen_outcome};

use crate::header::tree_outcome;
use crate::outcome::{Outcome, Reason};
use pure_lex::{LexFault, line_col, tokens};
use pure_script::{ScriptFault, TheoryText, read_theory};
use pure_text::Text;
use std::alloc::{AllocError, Global};

/// The most bytes that a file may have; one more is read, to see that a file has more.
pub(crate) const MOST_BYTES: u32 = 262_144;

/// What a source is: a theory, or not in the grammar, with the place of its first fault.
enum Parsed {
    Outside { at: u32 },
    Theory { text: TheoryText },
}

/// The tree of a source, or the place of its first fault. Its tokens are let go.
fn parse(alloc: Global, source: &[u8]) -> Result<Parsed, AllocError>
    requires { length source.now ≤ most_bytes }
    ensures { IfOk result (λ p. IsParsed source.now p) }
{
    let found = match tokens(alloc, source, 0, source.len() as u32) {
        Ok(found) => found,
        Err(LexFault::At { at }) => return Ok(Parsed::Outside { at }),
        Err(LexFault::Memory) => return Err(AllocError),
    };
    match read_theory(alloc, source, found.as_slice()) {
        Ok(text) => Ok(Parsed::Theory { text }),
        Err(ScriptFault::Syntax { at, .. }) => Ok(Parsed::Outside { at }),
        Err(ScriptFault::Memory) => Err(AllocError),
    }
}

/// Why a source with its first fault at this place is refused.
fn syntax_at(source: &[u8], at: u32) -> Reason
    requires within { at ≤ length source.now }
    requires small { length source.now ≤ most_bytes }
    ensures { result ≡ syntax_at source.now at }
{
    let (line, column) = line_col(source, at);
    Reason::Syntax { line, column }
}

/// What the bytes of a theory's file say of which this was read.
fn parsed_outcome(theory: &Text, source: Text, parsed: Parsed) -> Outcome
    requires small { length source ≤ most_bytes }
    requires parsed { IsParsed source parsed }
    ensures { IsBytesOutcome theory.now source (seen_outcome result) }
{
    match parsed {
        Parsed::Outside { at } => Outcome::Refused {
            reason: syntax_at(source.bytes(), at),
        },
        Parsed::Theory { text } => tree_outcome(theory, source, text),
    }
}

/// What the bytes of a theory's file say. Where memory runs out they come back.
fn bytes_outcome(alloc: Global, theory: &Text, source: Text) -> Result<Outcome, Text>
    ensures ok { IfOk result (λ outcome. IsBytesOutcome theory.now source (seen_outcome outcome)) }
    ensures err { IfErr result (λ left. left ≡ source) }
{
    if source.bytes().len() > MOST_BYTES as usize {
        return Ok(Outcome::Refused {
            reason: Reason::TooLarge,
        });
    }
    match parse(alloc, source.bytes()) {
        Ok(parsed) => Ok(parsed_outcome(theory, source, parsed)),
        Err(_) => Err(source),
    }
}

/// What is said where a theory's file is missing.
fn missing_outcome(alloc: Global, theory: &Text) -> Result<Outcome, AllocError>
    ensures { IfOk result (λ outcome. IsOwnOutcome theory.now None (seen_outcome outcome)) }
{
    let theory = theory.copy(alloc)?;
    Ok(Outcome::Refused {
        reason: Reason::NoFile { theory },
    })
}

/// What the file of a theory says by itself: these are its bytes, or it is missing. Where memory runs out they come back.
pub(crate) fn own_outcome(
    alloc: Global,
    theory: &Text,
    bytes: Option<Text>,
) -> Result<Outcome, Option<Text>>
    ensures ok { IfOk result (λ outcome. IsOwnOutcome theory.now bytes (seen_outcome outcome)) }
    ensures err { IfErr result (λ left. left ≡ bytes) }
{
    match bytes {
        None => match missing_outcome(alloc, theory) {
            Ok(outcome) => Ok(outcome),
            Err(_) => Err(None),
        },
        Some(source) => match bytes_outcome(alloc, theory, source) {
            Ok(outcome) => Ok(outcome),
            Err(source) => Err(Some(source)),
        },
    }
}

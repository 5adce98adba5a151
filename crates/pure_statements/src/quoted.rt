//! Ranges of a source read as terms and types.
ghost use Rattle.std.specs.Prelude.{◌≡◌, ◌<◌, ◌≤◌, length, IfOk, IfErr, Ok};
ghost use Rattle.pure_grammar.specs.Tokens.Spelling.{AreSlices};
ghost use Rattle.pure_script.specs.Seen.{span};
ghost use Rattle.pure_statements.specs.Chain.{Answers, FailsAs};
ghost use Rattle.pure_statements.specs.Quoted as spec;
ghost use Rattle.pure_statements.specs.Quoted.{AreTokensOf, IsReadTerm, IsReadTyp};

use crate::reason::{Failed, Reason};
use pure_grammar::Token;
use pure_lex::{LexFault, tokens};
use pure_read::{Raw, RawFault, RawTyp, read_raw, read_raw_typ};
use pure_script::Span;
use std::alloc::Global;

/// The tokens of the range, or its first fault.
fn tokens_of(alloc: Global, source: &[u8], at: Span) -> Result<Vec<Token>, Failed>
    requires order { at.from ≤ at.to }
    requires within { at.to ≤ length source.now }
    ensures ok { IfOk result (λ found. AreTokensOf source.now (span at) (Ok found.items)) }
    ensures slices { IfOk result (λ found. AreSlices source.now 0 (length source.now) found.items) }
    ensures failed { IfErr result (FailsAs (AreTokensOf source.now (span at))) }
{
    match tokens(alloc, source, at.from, at.to) {
        Ok(found) => Ok(found),
        Err(LexFault::At { at }) => Err(Failed::Refused {
            reason: Reason::Syntax { at },
        }),
        Err(LexFault::Memory) => Err(Failed::Memory),
    }
}

/// The place of a fault of syntax: for the source's end the end of the range.
fn ended_at(source: &[u8], at: Span, place: u32) -> u32
    ensures { result ≡ spec.ended_at source.now (span at) place }
{
    if place as usize == source.len() {
        at.to
    } else {
        place
    }
}

/// The fault of a reader as one of a command.
fn failed_reading(source: &[u8], at: Span, fault: RawFault) -> Failed
    ensures { result ≡ spec.failed_reading source.now (span at) fault }
{
    match fault {
        RawFault::TooLong => Failed::Refused {
            reason: Reason::TooLong,
        },
        RawFault::Syntax { at: place } => Failed::Refused {
            reason: Reason::Syntax {
                at: ended_at(source, at, place),
            },
        },
        RawFault::Memory => Failed::Memory,
    }
}

/// The tree of the term that the range spells; or where its tokens, or else the grammar, go wrong, places being those in the source.
pub fn read_term(alloc: Global, source: &[u8], at: Span) -> Result<Raw, Failed>
    requires small { length source.now < 4294967296 }
    requires order { at.from ≤ at.to }
    requires within { at.to ≤ length source.now }
    ensures { Answers (IsReadTerm source.now (span at)) result }
{
    let found = tokens_of(alloc, source, at)?;
    match read_raw(alloc, source, found.as_slice()) {
        Ok(raw) => Ok(raw),
        Err(fault) => Err(failed_reading(source, at, fault)),
    }
}

/// The tree of the type that the range spells; or where its tokens, or else the grammar, go wrong, places being those in the source.
pub fn read_typ(alloc: Global, source: &[u8], at: Span) -> Result<RawTyp, Failed>
    requires small { length source.now < 4294967296 }
    requires order { at.from ≤ at.to }
    requires within { at.to ≤ length source.now }
    ensures { Answers (IsReadTyp source.now (span at)) result }
{
    let found = tokens_of(alloc, source, at)?;
    match read_raw_typ(alloc, source, found.as_slice()) {
        Ok(raw) => Ok(raw),
        Err(fault) => Err(failed_reading(source, at, fault)),
    }
}

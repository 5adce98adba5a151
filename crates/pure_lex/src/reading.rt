//! The tokens of a source.
ghost use Rattle.std.specs.Prelude.{◌≡◌, ◌≤◌, length, slice_range, IfOk, IfErr};
ghost use Rattle.pure_grammar.specs.Tokens.Spelling.{Spells, AreSlices};
ghost use Rattle.pure_lex.specs.Faults.{IsFaultOf};

use crate::bytes::rest_from;
use crate::first::first_token;
use crate::gaps::gap_length;
use pure_grammar::Token;
use std::alloc::{AllocFailed, Global};

/// Why a source has no tokens: where its first fault stands. `Memory` is want of memory.
#[derive(Clone, Copy, Debug, PartialEq, Eq)]
pub enum LexFault {
    At { at: u32 },
    Memory,
}

impl From<AllocFailed<Token>> for LexFault {
    ghost use Rattle.pure_lex.specs.declared.reading.LexFault.TheVariants.{Memory};

    ghost from_gives = { λ _ fault. fault ≡ Memory };

    fn from(_failed: AllocFailed<Token>) -> LexFault {
        LexFault::Memory
    }
}

/// The tokens of this range of the source, or the place of its first fault: the first at which no token begins, or
/// at which a quoted text or a comment begins that isn't closed, or an identifier that is too long.
pub fn tokens(alloc: Global, source: &[u8], from: u32, to: u32) -> Result<Vec<Token>, LexFault>
    requires order { from ≤ to }
    requires within { to ≤ length source.now }
    ensures ok { IfOk result (λ found. Spells to found.items (slice_range source.now from to)) }
    ensures slices { IfOk result (λ found. AreSlices source.now from to found.items) }
    ensures fault { IfErr result (IsFaultOf to (slice_range source.now from to)) }
{
    let text = &source[from as usize..to as usize];
    let mut found = Vec::new(alloc);
    let mut at = 0;
    loop {
        at += gap_length(rest_from(text, at));
        let rest = rest_from(text, at);
        if rest.is_empty() {
            return Ok(found);
        }
        match first_token(rest) {
            Err(skipped) => {
                return Err(LexFault::At {
                    at: from + (at + skipped) as u32,
                });
            }
            Ok(first) => {
                let token = Token {
                    kind: first.kind,
                    from: from + at as u32,
                    to: from + (at + first.len) as u32,
                };
                found.push(token)?;
                at += first.len;
            }
        }
    }
}

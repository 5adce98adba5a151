//! The tokens of whole sources.
ghost use Rattle.std.specs.Prelude.{◌<◌, length, IfOk, IfSome};
ghost use Rattle.pure_grammar.specs.Tokens.Spelling.{AreSlices};

use pure_lex::{LexFault, Token, tokens};
use std::alloc::{AllocError, Global};

/// The tokens of the source, or none where it has a fault or is too large.
pub(crate) fn tokens_of(alloc: Global, source: &[u8]) -> Result<Option<Vec<Token>>, AllocError>
    ensures small { IfOk result (λ found. IfSome found (λ _. length source.now < 4294967295)) }
    ensures slices { IfOk result (λ found. IfSome found (λ list. AreSlices source.now 0 (length source.now) list.items)) }
{
    if source.len() >= 4_294_967_295 {
        return Ok(None);
    }
    match tokens(alloc, source, 0, source.len() as u32) {
        Ok(found) => Ok(Some(found)),
        Err(LexFault::At { .. }) => Ok(None),
        Err(LexFault::Memory) => Err(AllocError),
    }
}

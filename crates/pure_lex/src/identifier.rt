//! Texts that are one identifier.
ghost use Rattle.std.specs.Prelude.{◌≡◌};
ghost use Rattle.pure_lex.specs.Identifier.{is_identifier};

use crate::bytes::name_length;
use crate::names::{LONGEST, begins_letter, is_keyword};

/// Whether the text is one identifier: a spelling of at most 64 bytes that is no keyword.
pub fn is_identifier(text: &[u8]) -> bool
    ensures { result ≡ is_identifier text.now }
{
    if text.len() > LONGEST {
        return false;
    }
    if name_length(text) < text.len() {
        return false;
    }
    begins_letter(text) && !is_keyword(text)
}

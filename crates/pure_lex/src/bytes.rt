//! Classes of bytes, and how many bytes of a class stand at the front of a text.
ghost use Rattle.std.specs.Prelude.{◌≡◌, ◌≤◌, length, drop, slice_index};
ghost use Rattle.pure_grammar.specs.Tokens.Bytes.{is_letter, is_digit, is_name_byte, is_blank};
ghost use Rattle.pure_grammar.specs.Tokens.Token.{is_quotable};
ghost use Rattle.pure_lex.specs.Fronts.{IsRun, IsDigits};

/// How many digits a number, an index or a bound name may have.
const MOST_DIGITS: usize = 9;

/// The byte at this index, or 0 behind the end.
pub fn byte_at(text: &[u8], index: usize) -> u8
    ensures { result ≡ slice_index text.now index }
{
    text.get(index).copied().unwrap_or(0)
}

/// The text from this place on.
#[inline]
pub fn rest_from(text: &[u8], at: usize) -> &[u8]
    requires { at ≤ length text.now }
    ensures { result.now ≡ drop at text.now }
{
    &text[at..]
}

/// `A` to `Z` and `a` to `z`.
#[tactic(auto, unfolding(pure_grammar::specs::Tokens::Bytes::is_letter))]
pub fn is_letter(b: u8) -> bool
    ensures { result ≡ is_letter b }
{
    b.is_ascii_alphabetic()
}

/// `0` to `9`.
#[tactic(auto, unfolding(pure_grammar::specs::Tokens::Bytes::is_digit))]
pub fn is_digit(b: u8) -> bool
    ensures { result ≡ is_digit b }
{
    b.is_ascii_digit()
}

/// A letter, a digit, `_` or `'`.
#[tactic(auto, unfolding(pure_grammar::specs::Tokens::Bytes::is_name_byte))]
pub fn is_name_byte(b: u8) -> bool
    ensures { result ≡ is_name_byte b }
{
    is_letter(b) || is_digit(b) || b == b'_' || b == b'\''
}

/// A space, a tab, a carriage return or a line feed.
#[tactic(auto, unfolding(pure_grammar::specs::Tokens::Bytes::is_blank))]
pub fn is_blank(b: u8) -> bool
    ensures { result ≡ is_blank b }
{
    b == b' ' || b == b'\t' || b == b'\r' || b == b'\n'
}

/// Any ASCII byte but the quotation mark.
#[tactic(auto, unfolding(pure_grammar::specs::Tokens::Token::is_quotable))]
pub fn is_quotable(b: u8) -> bool
    ensures { result ≡ is_quotable b }
{
    b < 128 && b != b'"'
}

/// How many name bytes stand at the front.
pub fn name_length(text: &[u8]) -> usize
    ensures { IsRun is_name_byte text.now result }
{
    for (i, b) in text.iter().enumerate() {
        if !is_name_byte(*b) {
            return i;
        }
    }
    text.len()
}

/// How many bytes that may stand in a quoted text stand at the front.
pub fn quotable_length(text: &[u8]) -> usize
    ensures { IsRun is_quotable text.now result }
{
    for (i, b) in text.iter().enumerate() {
        if !is_quotable(*b) {
            return i;
        }
    }
    text.len()
}

/// How many digits stand at the front, of which `MOST_DIGITS` are counted at most.
pub fn digit_count(text: &[u8]) -> usize
    ensures { IsDigits text.now result }
{
    for (i, b) in text.iter().enumerate() {
        if i == MOST_DIGITS {
            return i;
        }
        if !is_digit(*b) {
            return i;
        }
    }
    text.len()
}

//! The first token of a text that begins with neither a blank nor a comment.
ghost use Rattle.std.specs.Prelude.{◌≡◌, ◌<◌, length, slice_index, true, false};
ghost use Rattle.pure_grammar.specs.Tokens.Bytes.{underscore, quotation_mark, head_is, is_digit};
ghost use Rattle.pure_grammar.specs.Tokens.Token.{is_single, is_pair, is_triple};
ghost use Rattle.pure_lex.specs.Fronts.{IsRead, begins_other, symbol_length};

use crate::bytes::{byte_at, digit_count, is_digit, is_letter, quotable_length, rest_from};
use crate::front::Front;
use crate::gaps::opens_comment;
use crate::names::{name, schematic, type_variable};
use pure_grammar::TokenKind;

/// Whether the text begins with a digit.
fn begins_digit(text: &[u8]) -> bool
    ensures { result ≡ head_is is_digit text.now }
{
    is_digit(byte_at(text, 0))
}

/// The number that begins here.
fn number(text: &[u8]) -> Result<Front, usize>
    requires { head_is is_digit text.now ≡ true }
    ensures { IsRead text.now result }
{
    Ok(Front {
        kind: TokenKind::Number,
        len: digit_count(text),
    })
}

/// The bound name whose mark stands here.
fn bound_name(text: &[u8]) -> Result<Front, usize>
    requires { slice_index text.now 0 ≡ underscore }
    ensures { IsRead text.now result }
{
    let digits = rest_from(text, 1);
    if !begins_digit(digits) {
        return Err(0);
    }
    Ok(Front {
        kind: TokenKind::BoundName,
        len: digit_count(digits) + 1,
    })
}

/// The quoted text whose first mark stands here.
fn quote(text: &[u8]) -> Result<Front, usize>
    requires { slice_index text.now 0 ≡ quotation_mark }
    ensures { IsRead text.now result }
{
    let body = rest_from(text, 1);
    let len = quotable_length(body);
    if byte_at(body, len) != b'"' {
        return Err(0);
    }
    Ok(Front {
        kind: TokenKind::Quote,
        len: len + 2,
    })
}

/// A symbol of one byte.
#[tactic(auto, unfolding(pure_grammar::specs::Tokens::Token::is_single))]
fn is_single(b: u8) -> bool
    ensures { result ≡ is_single b }
{
    b"%.,;:()[]{}<|+".contains(&b)
}

/// `!!`, `==`, `=>`, `::`, `[|` and `|]`.
#[tactic(auto, unfolding(pure_grammar::specs::Tokens::Token::is_pair))]
fn is_pair(b: u8, c: u8) -> bool
    ensures { result ≡ is_pair b c }
{
    match b {
        b'!' => c == b'!',
        b'=' => c == b'=' || c == b'>',
        b':' => c == b':',
        b'[' => c == b'|',
        b'|' => c == b']',
        _ => false,
    }
}

/// `==>`.
#[tactic(auto, unfolding(pure_grammar::specs::Tokens::Token::is_triple))]
fn is_triple(b: u8, c: u8, d: u8) -> bool
    ensures { result ≡ is_triple b c d }
{
    b == b'=' && c == b'=' && d == b'>'
}

/// How many of these three bytes are the longest symbol, 0 standing for the end of the text.
fn symbol_length(b: u8, c: u8, d: u8) -> usize
    ensures { result ≡ symbol_length b c d }
{
    if is_triple(b, c, d) {
        3
    } else if is_pair(b, c) {
        2
    } else if is_single(b) {
        1
    } else {
        0
    }
}

/// The symbol that begins here.
fn symbol(text: &[u8]) -> Result<Front, usize>
    requires some { 0 < length text.now }
    requires other { begins_other (slice_index text.now 0) ≡ false }
    ensures { IsRead text.now result }
{
    if opens_comment(text) {
        return Err(0);
    }
    let len = symbol_length(text[0], byte_at(text, 1), byte_at(text, 2));
    if len == 0 {
        return Err(0);
    }
    Ok(Front {
        kind: TokenKind::Symbol,
        len,
    })
}

/// The token that begins here, or how many bytes on a fault stands.
pub fn first_token(text: &[u8]) -> Result<Front, usize>
    requires { 0 < length text.now }
    ensures { IsRead text.now result }
{
    let first = text[0];
    if is_letter(first) {
        name(text)
    } else if is_digit(first) {
        number(text)
    } else if first == b'\'' {
        type_variable(text)
    } else if first == b'?' {
        schematic(text)
    } else if first == b'_' {
        bound_name(text)
    } else if first == b'"' {
        quote(text)
    } else {
        symbol(text)
    }
}

//! Tokens that are names: words, identifiers, qualified names, type variables and schematic variables.
ghost use Rattle.std.specs.Prelude.{◌≡◌, drop, slice_index, true};
ghost use Rattle.pure_grammar.specs.Tokens.Bytes.{dot, apostrophe, question_mark, is_letter, is_digit, is_name_byte, head_is, marked};
ghost use Rattle.pure_grammar.specs.Tokens.Token.{is_keyword};
ghost use Rattle.pure_lex.specs.Fronts.{IsFront, IsRead, IsRun, is_index, name_kind, HasMarks};

use crate::bytes::{byte_at, digit_count, is_digit, is_letter, name_length, rest_from};
use crate::front::Front;
use pure_grammar::TokenKind;

/// How many bytes an identifier may have.
pub(crate) const LONGEST: usize = 64;

/// The words that the grammar of theories reserves.
const KEYWORDS: [&[u8]; 21] = [
    b"theory",
    b"imports",
    b"begin",
    b"end",
    b"class",
    b"typedecl",
    b"arities",
    b"consts",
    b"axiomatization",
    b"where",
    b"and",
    b"definition",
    b"lemma",
    b"theorem",
    b"apply",
    b"done",
    b"by",
    b"prefer",
    b"defer",
    b"have",
    b"version",
];

/// The keyword of two bytes.
const OF_TWO: [&[u8]; 1] = [b"by"];

/// The keywords of three bytes.
const OF_THREE: [&[u8]; 2] = [b"end", b"and"];

/// Those of four.
const OF_FOUR: [&[u8]; 2] = [b"done", b"have"];

/// Those of five.
const OF_FIVE: [&[u8]; 6] = [b"begin", b"class", b"where", b"lemma", b"apply", b"defer"];

/// Those of six.
const OF_SIX: [&[u8]; 3] = [b"theory", b"consts", b"prefer"];

/// Those of seven.
const OF_SEVEN: [&[u8]; 4] = [b"imports", b"arities", b"theorem", b"version"];

/// Whether the text is a keyword. Only those of its length are looked at, where many texts have it.
pub(crate) fn is_keyword(text: &[u8]) -> bool
    ensures { result ≡ is_keyword text.now }
{
    match text.len() {
        1 => false,
        2 => OF_TWO.contains(&text),
        3 => OF_THREE.contains(&text),
        4 => OF_FOUR.contains(&text),
        5 => OF_FIVE.contains(&text),
        6 => OF_SIX.contains(&text),
        7 => OF_SEVEN.contains(&text),
        9 => false,
        _ => KEYWORDS.contains(&text),
    }
}

/// The kind of a spelling.
fn name_kind(text: &[u8]) -> TokenKind
    ensures { result ≡ name_kind text.now }
{
    if is_keyword(text) {
        TokenKind::Word
    } else {
        TokenKind::Ident
    }
}

/// Whether the text begins with a letter.
pub fn begins_letter(text: &[u8]) -> bool
    ensures { result ≡ head_is is_letter text.now }
{
    is_letter(byte_at(text, 0))
}

/// Whether the text begins with a dot and a letter.
fn begins_dotted_letter(text: &[u8]) -> bool
    ensures { result ≡ marked dot (head_is is_letter) text.now }
{
    byte_at(text, 0) == b'.' && is_letter(byte_at(text, 1))
}

/// Whether the text begins with a dot and a digit.
fn begins_dotted_digit(text: &[u8]) -> bool
    ensures { result ≡ marked dot (head_is is_digit) text.now }
{
    byte_at(text, 0) == b'.' && is_digit(byte_at(text, 1))
}

/// The qualified name that begins here, whose first name has `len` bytes.
fn qualified(text: &[u8], len: usize) -> Result<Front, usize>
    requires letter { head_is is_letter text.now ≡ true }
    requires first { IsRun is_name_byte text.now len }
    requires dotted { marked dot (head_is is_letter) (drop len text.now) ≡ true }
    ensures { IsRead text.now result }
{
    let second = name_length(rest_from(text, len + 1));
    if len > LONGEST {
        return Err(0);
    }
    if second > LONGEST {
        return Err(len + 1);
    }
    Ok(Front {
        kind: TokenKind::Qualified,
        len: len + 1 + second,
    })
}

/// The word, identifier or qualified name that begins here.
pub fn name(text: &[u8]) -> Result<Front, usize>
    requires { head_is is_letter text.now ≡ true }
    ensures { IsRead text.now result }
{
    let len = name_length(text);
    let rest = rest_from(text, len);
    if begins_dotted_letter(rest) {
        return qualified(text, len);
    }
    if len > LONGEST {
        return Err(0);
    }
    Ok(Front {
        kind: name_kind(&text[..len]),
        len,
    })
}

/// The type variable whose mark stands here.
pub fn type_variable(text: &[u8]) -> Result<Front, usize>
    requires { slice_index text.now 0 ≡ apostrophe }
    ensures { IsRead text.now result }
{
    let name = rest_from(text, 1);
    if !begins_letter(name) {
        return Err(0);
    }
    let len = name_length(name);
    if len > LONGEST {
        return Err(0);
    }
    Ok(Front {
        kind: TokenKind::TypeVar,
        len: len + 1,
    })
}

/// The length of the index that begins here, with its dot, or 0.
fn index_length(text: &[u8]) -> usize
    ensures { IsFront is_index text.now result }
{
    if begins_dotted_digit(text) {
        digit_count(rest_from(text, 1)) + 1
    } else {
        0
    }
}

/// The schematic variable with this many marks before its name.
fn indexed(text: &[u8], marks: usize) -> Result<Front, usize>
    requires { HasMarks text.now marks }
    ensures { IsRead text.now result }
{
    let name = rest_from(text, marks);
    if !begins_letter(name) {
        return Err(0);
    }
    let len = name_length(name);
    let index = index_length(rest_from(name, len));
    if len > LONGEST {
        return Err(0);
    }
    Ok(Front {
        kind: TokenKind::Schem,
        len: marks + len + index,
    })
}

/// The schematic variable whose mark stands here.
pub fn schematic(text: &[u8]) -> Result<Front, usize>
    requires { slice_index text.now 0 ≡ question_mark }
    ensures { IsRead text.now result }
{
    if byte_at(text, 1) == b'\'' {
        indexed(text, 2)
    } else {
        indexed(text, 1)
    }
}

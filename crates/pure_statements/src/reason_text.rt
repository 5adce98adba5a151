//! The texts of reasons.
ghost use Rattle.std.specs.Prelude.{◌≡◌, ◌<◌, ◌-◌, ◌^◌, ◌++◌, ◌∷◌, length, take, OnOk};
ghost use Rattle.std.specs.Fmt.{decimal};
ghost use Rattle.pure_lex.specs.Lines as lines;
ghost use Rattle.pure_print.specs.NameText.{text_of_name};
ghost use Rattle.pure_statements.specs.ReasonText as spec;

use crate::reason::Reason;
use pure_print::push_text_of_name;
use pure_typ::{Name, Names};
use std::alloc::{AllocError, Global};

#[tactic(auto, unfolding(crate::specs::ReasonText::reason_words))]
fn words(reason: Reason) -> &'static [u8]
    ensures { result.now ≡ spec.reason_words reason }
{
    match reason {
        Reason::Duplicate => b"duplicate",
        Reason::UnknownClass => b"unknown class",
        Reason::UnknownType => b"unknown type",
        Reason::WrongCount => b"wrong count",
        Reason::NotCoregular { .. } => b"not coregular ",
        Reason::Syntax { .. } => b"syntax at ",
        Reason::TooLong => b"too long",
        Reason::UnknownNameAt { .. } => b"unknown name at ",
        Reason::UnknownClassAt { .. } => b"unknown class at ",
        Reason::WrongCountAt { .. } => b"wrong count at ",
        Reason::SchematicAt { .. } => b"schematic at ",
        Reason::IllTyped { .. } => b"ill-typed at ",
        Reason::TooManySteps => b"too many beta steps",
        Reason::TooLarge => b"too large",
        Reason::NotDefinition => b"not a definition",
        Reason::NotClosed => b"not closed",
        Reason::ExtraTypeVariable => b"extra type variable",
    }
}

/// The bytes before this place: all of them where it lies behind the end.
fn bytes_before(source: &[u8], at: u32) -> &[u8]
    ensures { result.now ≡ take at source.now }
{
    if at as usize <= source.len() {
        &source[..at as usize]
    } else {
        source
    }
}

/// The line of the place behind these bytes.
fn line_behind(bytes: &[u8]) -> u32
    requires { length bytes.now < 2 ^ 32 - 1 }
    ensures { result ≡ lines.line_behind bytes.now }
{
    let mut feeds = 0;
    for byte in bytes {
        if *byte == b'\n' {
            feeds += 1;
        }
    }
    feeds + 1
}

/// The column of the place behind these bytes, which is counted from there back to its line's beginning.
fn column_behind(bytes: &[u8]) -> u32
    requires { length bytes.now < 2 ^ 32 - 1 }
    ensures { result ≡ lines.column_behind bytes.now }
{
    let mut start = bytes.len();
    while start > 0 && bytes[start - 1] != b'\n' {
        start -= 1;
    }
    (bytes.len() - start) as u32 + 1
}

/// Appends the number in decimal digits.
fn push_number(alloc: Global, text: &mut Vec<u8>, number: u32) -> Result<(), AllocError>
    ensures { OnOk result (text.new.items ≡ text.old.items ++ decimal number) }
{
    let digits = number.to_string(alloc)?;
    text.extend_from_slice(digits.as_bytes())?;
    Ok(())
}

fn push_place(alloc: Global, text: &mut Vec<u8>, source: &[u8], at: u32) -> Result<(), AllocError>
    requires { length source.now < 2 ^ 32 - 1 }
    ensures { OnOk result (text.new.items ≡ text.old.items ++ spec.place_text source.now at) }
{
    let bytes = bytes_before(source, at);
    push_number(alloc, text, line_behind(bytes))?;
    text.push(b':')?;
    push_number(alloc, text, column_behind(bytes))?;
    Ok(())
}

fn push_names(
    text: &mut Vec<u8>,
    names: &Names,
    con: Name,
    c1: Name,
    c2: Name,
) -> Result<(), AllocError>
    ensures { OnOk result (text.new.items ≡ text.old.items ++ (text_of_name names.now con ++ (32 ∷ (text_of_name names.now c1 ++ (32 ∷ text_of_name names.now c2))))) }
{
    push_text_of_name(text, names, con)?;
    text.push(b' ')?;
    push_text_of_name(text, names, c1)?;
    text.push(b' ')?;
    push_text_of_name(text, names, c2)?;
    Ok(())
}

fn push_rest(
    alloc: Global,
    text: &mut Vec<u8>,
    names: &Names,
    source: &[u8],
    reason: Reason,
) -> Result<(), AllocError>
    requires { length source.now < 2 ^ 32 - 1 }
    ensures { OnOk result (text.new.items ≡ text.old.items ++ spec.reason_rest names.now source.now reason) }
{
    match reason {
        Reason::NotCoregular { con, c1, c2 } => push_names(text, names, con, c1, c2),
        Reason::Syntax { at } => push_place(alloc, text, source, at),
        Reason::UnknownNameAt { at } => push_place(alloc, text, source, at),
        Reason::UnknownClassAt { at } => push_place(alloc, text, source, at),
        Reason::WrongCountAt { at } => push_place(alloc, text, source, at),
        Reason::SchematicAt { at } => push_place(alloc, text, source, at),
        Reason::IllTyped { at } => push_place(alloc, text, source, at),
        Reason::Duplicate => Ok(()),
        Reason::UnknownClass => Ok(()),
        Reason::UnknownType => Ok(()),
        Reason::WrongCount => Ok(()),
        Reason::TooLong => Ok(()),
        Reason::TooManySteps => Ok(()),
        Reason::TooLarge => Ok(()),
        Reason::NotDefinition => Ok(()),
        Reason::NotClosed => Ok(()),
        Reason::ExtraTypeVariable => Ok(()),
    }
}

fn push_words(text: &mut Vec<u8>, reason: Reason) -> Result<(), AllocError>
    ensures { OnOk result (text.new.items ≡ text.old.items ++ spec.reason_words reason) }
{
    text.extend_from_slice(words(reason))?;
    Ok(())
}

/// Appends the text of the reason.
pub fn push_reason(
    alloc: Global,
    text: &mut Vec<u8>,
    names: &Names,
    source: &[u8],
    reason: &Reason,
) -> Result<(), AllocError>
    requires { length source.now < 2 ^ 32 - 1 }
    ensures { OnOk result (text.new.items ≡ text.old.items ++ spec.reason_text names.now source.now reason.now) }
{
    push_words(text, *reason)?;
    push_rest(alloc, text, names, source, *reason)?;
    Ok(())
}

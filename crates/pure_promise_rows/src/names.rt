//! The names of the rows.
ghost use Rattle.std.specs.Prelude.{◌≡◌, IfOk, map};

use pure_term::{Label, Name, Names, Text};
use std::alloc::{AllocError, Global};

/// The texts of the names from 6 on: a variable, and lemmas.
const TEXTS: [&[u8]; 5] = [b"A", b"A.bad", b"A.ok", b"A.u", b"A.v"];

/// The variable's name.
pub(crate) const VARIABLE: Name = Name(6);

/// The texts of the names. What it ensures is there for `Names::make`, which asks that the texts ascend.
fn texts(alloc: Global, rows: &[&[u8]]) -> Result<Vec<Text>, AllocError>
    ensures { IfOk result (λ v. v.items ≡ map (λ row. row.now) rows.now) }
{
    let mut made = Vec::new(alloc);
    for text in rows {
        made.push(Text::make(alloc, text)?)?;
    }
    Ok(made)
}

/// The names of the rows.
pub(crate) fn own_names(alloc: Global) -> Result<Names, AllocError> {
    let names = Names::make(alloc, texts(alloc, &TEXTS)?)?;
    Ok(names)
}

/// The name of the lemma at the place: `A.bad`, `A.u`, `A.v` and `A.ok`, and so again.
pub(crate) fn name_at(place: u32) -> Name {
    match place % 4 {
        0 => Name(7),
        1 => Name(9),
        2 => Name(10),
        _ => Name(8),
    }
}

/// The label of the lemma at the place.
pub(crate) fn label_at(place: u32) -> Label
    ensures theory { result.theory ≡ 1 }
    ensures command { result.command ≡ place }
{
    Label {
        theory: 1,
        command: place,
        part: 0,
    }
}

/// The bytes before the first mark, and those behind it. Where there is no mark, all are before it.
pub(crate) fn cut(text: &[u8], mark: u8) -> (&[u8], &[u8]) {
    match text.iter().position(|byte| *byte == mark) {
        Some(at) => (&text[..at], &text[at + 1..]),
        None => (text, b""),
    }
}

//! The names of the look-ups.
ghost use Rattle.std.specs.Prelude.{◌≡◌, IfOk, map};

use pure_term::Names;
use pure_typ::{NamesByBase, Text};
use std::alloc::{AllocError, Global};

/// The texts of the names from 6 on.
const TEXTS: [&[u8]; 15] = [
    b"A", b"A.all", b"A.fun", b"A.p", b"A.refl", b"A.x", b"A.y", b"B", b"B.p", b"B.x", b"B.z",
    b"C", b"C.x", b"D", b"D.x",
];

/// The texts of the names. What it ensures is there for `Names::make`, which asks that the texts ascend.
fn texts(alloc: Global, rows: &[&[u8]]) -> Result<Vec<Text>, AllocError>
    ensures { IfOk result (λ v. v.items ≡ map (λ row. row.now) rows.now) }
{
    let mut made = Vec::new(alloc);
    for text in rows {
        made.push(Text::make(alloc, text)?)?;
    }
    Ok(made)
}

/// The names of the texts, by their bases.
pub(crate) fn own_names(alloc: Global) -> Result<NamesByBase, AllocError> {
    let names = Names::make(alloc, texts(alloc, &TEXTS)?)?;
    NamesByBase::make(alloc, names)
}

/// No texts but Pure's own.
pub(crate) fn no_names(alloc: Global) -> Result<NamesByBase, AllocError> {
    let names = Names::make(alloc, Vec::new(alloc))?;
    NamesByBase::make(alloc, names)
}

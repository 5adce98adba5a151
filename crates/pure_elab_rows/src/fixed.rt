//! Types without schematic type variables.
ghost use Rattle.std.specs.Prelude.{IfOk, IsTrue};
ghost use Rattle.pure_elab.specs.Answers.{IsFixedTyp};

use crate::read::typ_of;
use pure_rows::Outcome;
use pure_typ::{Typ, index_above_of_typ};
use std::alloc::Global;

/// Whether no schematic type variable occurs in the type.
fn is_fixed(typ: &Typ) -> bool
    ensures { IsTrue result → IsFixedTyp typ.now }
{
    index_above_of_typ(typ) == 0
}

/// The type of the notation, if no schematic type variable occurs in it.
pub(crate) fn fixed_typ(alloc: Global, text: &[u8]) -> Result<Typ, Outcome>
    ensures { IfOk result IsFixedTyp }
{
    let typ = typ_of(alloc, text)?;
    if is_fixed(&typ) {
        Ok(typ)
    } else {
        Err(Outcome::Unreadable)
    }
}

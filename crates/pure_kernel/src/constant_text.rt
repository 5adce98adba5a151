//! The types of constants, from their texts.
ghost use Rattle.std.specs.Prelude.{IfOk};
ghost use Rattle.pure_definitions.specs.Declarations.Certified.{IsCertifiedTyp};
ghost use Rattle.pure_logic.specs.Content.{IsSchematicTyp};

use crate::theory_text::{TextFault, typ_of_text};
use pure_declare::theory::Theory;
use pure_statements::schematic_typ;
use pure_typ::{NamesByBase, Typ};
use std::alloc::Global;

/// The type that the text writes over the theory with its type variables made schematic, as a constant is declared with.
pub fn constant_typ_of_text(
    alloc: Global,
    theory: &Theory,
    names: &NamesByBase,
    text: &[u8],
) -> Result<Typ, TextFault>
    ensures certified { IfOk result (IsCertifiedTyp theory.now.declarations) }
    ensures schematic { IfOk result IsSchematicTyp }
{
    let fixed = typ_of_text(alloc, theory, names, text)?;
    let typ = schematic_typ(alloc, &fixed)?;
    Ok(typ)
}

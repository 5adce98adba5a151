//! Written types.
ghost use Rattle.std.specs.Prelude.{◌≡◌, IfOk};
ghost use Rattle.pure_definitions.specs.Types.Typ as tree;
ghost use Rattle.pure_grammar.specs.Tokens.Token.{tail};
ghost use Rattle.pure_grammar.specs.Terms.RawTree.{raw_typs_of};
ghost use Rattle.pure_elab.specs.Written as spec;
ghost use Rattle.pure_elab.specs.Table.{sort_among};

use crate::faults::behind_mark;
use crate::language::Language;
use crate::sorts::{VariableSort, sort_of};
use pure_read::{RawTyp, RawTypNode};
use pure_typ::{Typ, TypNode};
use std::alloc::{AllocError, Global};

/// A type variable.
fn variable<L: Language>(
    alloc: Global,
    language: &L,
    sorts: &[VariableSort],
    text: &[u8],
) -> Result<Typ, AllocError>
    ensures { IfOk result (λ t. let x = spec.name_or 0 ((L.vocabulary language.now).name_written (tail text.now)) in t ≡ tree.TFree x (sort_among sorts.now x)) }
{
    match language.find_name(behind_mark(text)) {
        None => Err(AllocError),
        Some(name) => {
            let sort = sort_of(alloc, sorts, name)?;
            Ok(Typ {
                node: TypNode::TFree { name, sort },
            })
        }
    }
}

/// The type that is written, where names are found.
#[cycle(written_typ)]
pub(crate) fn written_typ<L: Language>(
    alloc: Global,
    language: &L,
    sorts: &[VariableSort],
    raw: &RawTyp,
) -> Result<Typ, AllocError>
    ensures { IfOk result (λ t. t ≡ spec.written_typ (L.vocabulary language.now) (sort_among sorts.now) raw.now) }
{
    match &raw.node {
        RawTypNode::Var { text, .. } => variable(alloc, language, sorts, text.bytes()),
        RawTypNode::Con { name, args, .. } => match language.find_typ(name.bytes()) {
            None => Err(AllocError),
            Some(name) => {
                let args = written_typs(alloc, language, sorts, args.as_slice())?;
                Typ::constructed(alloc, name, args)
            }
        },
    }
}

/// The types that are written.
#[cycle(written_typ)]
fn written_typs<L: Language>(
    alloc: Global,
    language: &L,
    sorts: &[VariableSort],
    args: &[RawTyp],
) -> Result<Vec<Typ>, AllocError>
    ensures { IfOk result (λ ts. tree.typs_of ts.items ≡ spec.written_typs (L.vocabulary language.now) (sort_among sorts.now) (raw_typs_of args.now)) }
{
    let mut typs = Vec::with_capacity(alloc, args.len())?;
    for arg in args {
        let typ = written_typ(alloc, language, sorts, arg)?;
        typs.push(typ)?;
    }
    Ok(typs)
}

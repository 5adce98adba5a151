//! Types as they are printed.
ghost use Rattle.std.specs.Prelude.{◌≡◌, ◌++◌, OnOk, codes};
ghost use Rattle.pure_definitions.specs.Types.Typ.{typs_of};
ghost use Rattle.pure_record_print.specs.Printed as spec;

use crate::name::{push_name, push_typ_name, push_variable};
use pure_term::{Names, Typ, TypNode};
use std::alloc::AllocError;

/// Appends a type.
#[cycle(push_typ)]
pub(crate) fn push_typ(text: &mut Vec<u8>, names: &Names, t: &Typ) -> Result<(), AllocError>
    ensures { OnOk result (text.new.items ≡ text.old.items ++ spec.typ_text names.now t.now) }
{
    match &t.node {
        TypNode::TFree { name, .. } => {
            text.extend_from_slice(b"'")?;
            push_name(text, names, *name)
        }
        TypNode::TVar { name, index, .. } => {
            text.extend_from_slice(b"?'")?;
            push_variable(text, names, *name, *index)
        }
        TypNode::Con { name, args } => {
            push_typ_name(text, names, *name)?;
            push_arguments(text, names, args.as_slice())
        }
    }
}

/// Appends what a constructor is applied to.
#[cycle(push_typ)]
fn push_arguments(text: &mut Vec<u8>, names: &Names, args: &[Typ]) -> Result<(), AllocError>
    ensures { OnOk result (text.new.items ≡ text.old.items ++ spec.arguments_text names.now (typs_of args.now)) }
{
    if args.len() == 0 {
        return Ok(());
    }
    text.extend_from_slice(b"( ")?;
    push_typ(text, names, &args[0])?;
    push_more_arguments(text, names, &args[1..])?;
    text.extend_from_slice(b") ")?;
    Ok(())
}

/// Appends each type behind a comma.
#[cycle(push_typ)]
fn push_more_arguments(text: &mut Vec<u8>, names: &Names, args: &[Typ]) -> Result<(), AllocError>
    ensures { OnOk result (text.new.items ≡ text.old.items ++ spec.more_arguments_text names.now (typs_of args.now)) }
{
    for arg in args {
        text.extend_from_slice(b", ")?;
        push_typ(text, names, arg)?;
    }
    Ok(())
}

/// Appends a type between a colon and the bracket that closes.
pub(crate) fn push_typed(
    text: &mut Vec<u8>,
    names: &Names,
    t: &Typ,
    close: &[u8],
) -> Result<(), AllocError>
    ensures { OnOk result (text.new.items ≡ text.old.items ++ (codes ": " ++ (spec.typ_text names.now t.now ++ close.now))) }
{
    text.extend_from_slice(b": ")?;
    push_typ(text, names, t)?;
    text.extend_from_slice(close)?;
    Ok(())
}
